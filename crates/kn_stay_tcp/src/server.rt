//! A server with its parts.
ghost use Rattle.std.specs.Prelude.{◌≤◌, length};
ghost use Rattle.kn_cell.specs.Shown.{PassView};

use crate::ending::Ended;
use crate::notes::FaultNotes;
use crate::shown::Shown;
use crate::slots::StaySlot;
use kn_door::{Close, MemDoor};
use kn_faults::FaultLog;
use kn_front::{Front, InputStop};
use kn_io::{MachineClock, OpenGate, ReaderSource, Sink, WriterSink};
use kn_journal::Status;
use kn_page::Page;
use kn_plan::StayPlan;
use kn_session::{Attendant, ByDoor, NoAttendant};
use kn_stay::{Doors, StaySetting, Stayed, stay_run};
use kn_tcp::TcpLink;
use std::alloc::Global;
use std::io::{Read, Write};
use std::net::{Net, TcpListener, TcpStream};
use std::os::fd::AsRawFd;
use std::sync::Wait;
use std::thread;
use std::thread::Threads;
use std::time::Clock;

/// What a server is run with, once it listens.
#[derive(Drop)]
pub struct Server<'a, 'f, N, I, O, E> {
    pub rt: &'a N,
    pub alloc: Global,
    pub plan: &'f StayPlan,
    pub log: &'f FaultLog<E, &'a N>,
    pub front: &'f Front,
    pub setup: ReaderSource<I>,
    pub stop: InputStop<I>,
    pub out: WriterSink<O>,
    pub slots: Vec<StaySlot<'a, N>>,
    pub keeper: TcpLink<&'a N>,
}

impl<
    'a,
    'f,
    N: Net<Listener = TcpListener, Stream = TcpStream> + Clock + Threads + Wait + Sync,
    I: Read + AsRawFd + Drop + Send,
    O: Write + Send + Drop,
    E: Sink + Send + Drop,
> Server<'a, 'f, N, I, O, E> {
    /// Serves until standard input ends. The clients' door is closed then, and the page's.
    fn stay<D: Close + Sync, W: Attendant + Send>(
        self,
        notes: &'f FaultNotes<'f, E, &'a N>,
        page_door: &'f D,
        page: &mut W,
    ) -> Stayed
        requires slots { length self.slots.items ≤ 1024 }
        requires room { self.plan.now.room ≤ 1000000 }
        requires page { (p : PassView) → W.may page.old p }
    {
        let Server {
            rt,
            alloc,
            plan,
            front,
            mut setup,
            mut stop,
            mut out,
            mut slots,
            mut keeper,
            ..
        } = self;
        let setting = StaySetting {
            alloc,
            clock: &MachineClock::new(rt),
            gate: &OpenGate,
            pace: &ByDoor::new(front.door(), notes),
            doors: &Doors {
                clients: front.door(),
                page: page_door,
            },
            room: plan.room,
            addresses: plan.pods.items().len() as u64,
        };
        let stayed = stay_run(
            rt,
            &setting,
            &mut setup,
            &mut slots,
            &mut keeper,
            &mut stop,
            &mut out,
            page,
        );
        front.door().close();
        page_door.close();
        stayed
    }

    /// Lets clients in, and serves them until standard input ends.
    fn run<D: Close + Sync, W: Attendant + Send>(self, page_door: &'f D, page: &mut W) -> Ended
        requires slots { length self.slots.items ≤ 1024 }
        requires room { self.plan.now.room ≤ 1000000 }
        requires page { (p : PassView) → W.may page.old p }
    {
        let (rt, front) = (self.rt, self.front);
        let addresses = self.plan.pods.items().len() as u64;
        let notes = FaultNotes::new(self.log);
        let (ran, stayed) = thread::join(
            rt,
            || front.run(rt),
            || -> Stayed
                requires slots { length self.slots.items ≤ 1024 }
                requires room { self.plan.now.room ≤ 1000000 }
                requires page { (p : PassView) → W.may page.now p }
            { self.stay(&notes, page_door, page) },
        );
        match Ended::of(stayed, addresses) {
            // It served those who were there, and then nobody could come in any more.
            Ended::So(Status::Ok) if ran.is_err() => Ended::So(Status::ListenFault),
            ended => ended,
        }
    }

    /// The same without a status page.
    pub fn run_alone(self) -> Ended
        requires slots { length self.slots.items ≤ 1024 }
        requires room { self.plan.now.room ≤ 1000000 }
    {
        self.run(&MemDoor::new(0), &mut NoAttendant)
    }

    /// The same with a status page, whose clients come to this front.
    pub fn run_with_page(self, page: &'f Front) -> Ended
        requires slots { length self.slots.items ≤ 1024 }
        requires room { self.plan.now.room ≤ 1000000 }
    {
        let (rt, log) = (self.rt, self.log);
        let shown = Shown::new(self.front.door());
        let mut attendant = Page::new(page.caller(rt), page.door(), &shown);
        let (_, ended) = thread::join(
            rt,
            || {
                if page.run(rt).is_err() {
                    log.say(rt, b"kactd: status page failed\n");
                }
            },
            || -> Ended
                requires slots { length self.slots.items ≤ 1024 }
                requires room { self.plan.now.room ≤ 1000000 }
            { self.run(page.door(), &mut attendant) },
        );
        ended
    }
}
