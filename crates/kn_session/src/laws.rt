//! What a session needs of traces.
ghost use Rattle.kn_session.specs.Laws.{SessionLaws};

use kn_request::server_laws;
use kn_sizes::server::{lasting_laws, need_laws, request_laws};

/// The laws of traces, as a session cites them.
pub fn session_laws()
    ensures { SessionLaws }
{
    server_laws();
    request_laws();
    lasting_laws();
    need_laws();
}
