//! `pods`, whose limit is 7, at time 5: `scale WANT` with the rows that it makes, `ready POD`, `live POD`, `lost POD`,
//! `remove POD`, `next-starting POD`, and `count`, how many of those created are Ready.
use crate::subject::{Subject, act_all};
use crate::words::{add, add_entry, add_flag, add_number, add_option, number, word};
use kn_event::EntryLog;
use kn_pods::{PodAnswer, Pods};
use std::alloc::Global;

/// Pods, and the rows of the last scale.
#[derive(Drop)]
struct Scaled<'a> {
    pods: &'a mut Pods,
    log: &'a mut EntryLog,
}

fn with_log(alloc: Global, log: &mut EntryLog, block: &str, out: &mut String) {
    if let Ok(mut pods) = Pods::new(alloc) {
        act_all(
            &mut Scaled {
                pods: &mut pods,
                log,
            },
            block,
            out,
        );
    }
}

pub fn pods(alloc: Global, block: &str, out: &mut String) {
    if let Ok(mut log) = EntryLog::new(alloc) {
        with_log(alloc, &mut log, block, out);
    }
}

fn scale(pods: &mut Pods, log: &mut EntryLog, want: u64, out: &mut String) {
    log.clear();
    let may = pods.count_draining() <= 20_000 && pods.count_created() < 1 << 63;
    if want <= 500 && may {
        pods.apply(want, 7, 5, log);
    }
    add_number(out, "", log.entries().len() as u64);
    add(out, " rows");
    for entry in log.entries() {
        add(out, ", ");
        add_entry(out, entry);
    }
}

fn remove(pods: &mut Pods, p: u64, out: &mut String) {
    if pods.is_draining(p) {
        pods.removed(p);
        add_flag(out, "drained, now ", pods.is_draining(p));
    }
}

fn ready_word(answer: PodAnswer) -> &'static str {
    match answer {
        PodAnswer::Done => "done",
        PodAnswer::NotStarting => "not starting",
        PodAnswer::NoPod => "no pod",
    }
}

impl Subject for Scaled<'_> {
    fn act(&mut self, line: &str, out: &mut String) {
        let p = number(line, 1);
        match word(line, 0) {
            "scale" => scale(self.pods, self.log, p, out),
            "ready" => add(out, ready_word(self.pods.ready(p))),
            "live" => add_flag(out, "", self.pods.live(p)),
            "lost" => add_flag(out, "", self.pods.lost(p)),
            "remove" => remove(self.pods, p, out),
            "next-starting" => add_option(out, "", self.pods.next_starting(p)),
            _ => {
                add_number(out, "", self.pods.count_ready());
                add_number(out, " of ", self.pods.count_created());
            }
        }
    }
}
