use kn_event::Slots;

/// What several activators of one revision start from: how many they are, the limit of each pod that they share, the pods, and what
/// each activator has of its own.
#[derive(Clone, Copy)]
pub struct GroupSetup {
    pub activators: u64,
    pub limit: u64,
    pub pods: u64,
    pub timeout_s: u64,
    pub slots: Slots,
}
