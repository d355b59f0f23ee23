//! `book ADDRESSES`: each act is a row of a pod, `create`, `ready`, `drain`, `remove`, `lost-pod` or `no-pod`, and
//! comes to the addresses of pods 0 to 5.
use crate::subject::{Subject, act_all};
use crate::words::{add, add_number, number, word};
use kn_book::Book;
use kn_event::{Entry, Row};
use std::alloc::Global;

pub fn book(alloc: Global, block: &str, out: &mut String) {
    match number(block, 1) {
        0 => act_all(&mut Book::none(alloc), block, out),
        addresses => if let Ok(mut book) = Book::new(alloc, addresses) {
            act_all(&mut book, block, out);
        },
    }
}

fn row_of(word: &str, pod: u64) -> Row {
    match word {
        "create" => Row::Create(pod, 1),
        "ready" => Row::Ready(pod),
        "drain" => Row::Drain(pod),
        "remove" => Row::Remove(pod),
        "lost-pod" => Row::LostPod(pod),
        _ => Row::NoPod(pod),
    }
}

impl Subject for Book {
    fn act(&mut self, line: &str, out: &mut String) {
        let entries = [Entry {
            time: 0,
            row: row_of(word(line, 0), number(line, 1)),
        }];
        if self.has_room(&entries) {
            self.apply(&entries);
        }
        add(out, "at");
        for pod in 0..6 {
            match self.address(pod) {
                Some(address) => add_number(out, " ", address),
                None => add(out, " -"),
            }
        }
    }
}
