/// What happens to one live request.
#[derive(Clone, Copy)]
pub enum Change {
    /// The activator takes it in.
    Admitted,
    /// The activator hands it to the pod.
    Assigned(u64),
    /// It goes past the activator, straight to the pod.
    Directed(u64),
    /// It ends where the activator holds it.
    EndedHeld,
    /// It ends at the pod; whether it came there through the activator.
    EndedAt(u64, bool),
}
