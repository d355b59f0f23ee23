//! `policy cc CC seed SEED`: `pick POD:RUNNING/LIMIT ..`, the pod that is picked of the Ready ones named; `spread COUNT
//! LIMIT ROUND`, of so many pods of one limit, at which the numbers below the limit and two run by turns, in another
//! order in each round; `marked`, of a full one and a free one with their marks.
use crate::subject::{Subject, act_all};
use crate::words::{add_option, number, word};
use kn_policy::{Cand, Policy};
use std::alloc::Global;

/// A policy, and what a list of pods is made with.
#[derive(Drop)]
struct Policies(Policy, Global);

pub fn policy(alloc: Global, block: &str, out: &mut String) {
    let policy = Policy::new(number(block, 2), number(block, 4));
    act_all(&mut Policies(policy, alloc), block, out);
}

/// The Ready pod of a word `POD:RUNNING/LIMIT`.
fn ready_pod(word: &str) -> Option<Cand> {
    let (pod, seats) = word.split_once(':')?;
    let (running, limit) = seats.split_once('/')?;
    Some(Cand {
        pod: pod.parse().unwrap_or(0),
        limit: limit.parse().unwrap_or(0),
        running: running.parse().unwrap_or(0),
    })
}

/// Adds the Ready pods that a line names.
fn name_pods(ready: &mut Vec<Cand>, line: &str) {
    for word in line.split_whitespace() {
        if let Some(cand) = ready_pod(word) {
            let _ = ready.push(cand);
        }
    }
}

fn spread(ready: &mut Vec<Cand>, count: u64, limit: u64, round: u64) {
    for pod in 0..count.min(1_000) {
        let running = (5 * pod + round.min(1_000) * 3 + pod / 7) % limit.saturating_add(2);
        let _ = ready.push(Cand {
            pod,
            limit,
            running,
        });
    }
}

/// Whom it picks of pod 2, which is full, and pod 5.
fn pick_marked(policy: &mut Policy) -> Option<u64> {
    let ready = [
        Cand {
            pod: 2,
            limit: 1,
            running: 1,
        },
        Cand {
            pod: 5,
            limit: 1,
            running: 0,
        },
    ];
    policy.pick_marked(&ready, &[0, 1], 1)
}

fn pick(alloc: Global, policy: &mut Policy, line: &str) -> Option<u64> {
    let mut ready = Vec::new(alloc);
    if word(line, 0) == "spread" {
        spread(
            &mut ready,
            number(line, 1),
            number(line, 2),
            number(line, 3),
        );
    } else {
        name_pods(&mut ready, line);
    }
    policy.pick(&ready)
}

impl Subject for Policies {
    fn act(&mut self, line: &str, out: &mut String) {
        let picked = match word(line, 0) {
            "marked" => pick_marked(&mut self.0),
            _ => pick(self.1, &mut self.0, line),
        };
        add_option(out, "", picked);
    }
}
