//! The doors that a scribe closes.

/// The door of the clients and that of the page.
#[derive(Drop)]
pub struct Doors<'a, D, E> {
    /// Closed once the server is to stop, or nothing can be written.
    pub clients: &'a D,
    /// Closed last of all, once no slot is at work.
    pub page: &'a E,
}
