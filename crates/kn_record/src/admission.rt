//! What a trace comes to: the live requests and the live pods.

/// Where a live request is.
#[derive(Clone, Copy)]
pub enum Place {
    /// In the activator, without a pod.
    Held,
    /// Queued at the pod.
    Queued(u64),
    /// Running at the pod; whether it was assigned there by the activator, or went straight.
    Running(u64, bool),
}

/// A live request.
#[derive(Clone, Copy)]
pub struct Request {
    pub number: u64,
    /// When it was taken in, in milliseconds.
    pub time: u64,
    pub place: Place,
}

/// How far a live pod is.
#[derive(Clone, Copy)]
pub enum Readiness {
    Starting,
    Ready,
    Draining,
}

/// A live pod.
#[derive(Clone, Copy)]
pub struct Pod {
    pub number: u64,
    /// Requests that may run there; 0 is no limit.
    pub limit: u64,
    pub readiness: Readiness,
}
