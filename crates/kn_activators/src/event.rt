ghost use Rattle.std.specs.Prelude.{◌≡◌};
ghost use Rattle.kn_activators.specs.Sharing.{time_of};

use kn_event::Event;

/// What happens to activators that share a revision's pods. Times are in milliseconds.
#[derive(Clone, Copy)]
pub enum GroupEvent {
    /// An event of one activator, by its number.
    One(u64, Event),
    /// At this time a pod is ready, for all activators.
    Ready(u64, u64),
    /// At this time another limit of a pod is wanted.
    Limit(u64, u64, u64),
}

impl GroupEvent {
    /// Its time, in milliseconds.
    pub fn time(&self) -> u64
        ensures { result ≡ time_of self.now }
    {
        match *self {
            GroupEvent::One(_, e) => e.time,
            GroupEvent::Ready(time, _) | GroupEvent::Limit(time, _, _) => time,
        }
    }
}
