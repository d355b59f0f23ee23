//! What the server needs of traces.
ghost use Rattle.kn_request.specs.Laws.{RequestLaws};
ghost use Rattle.kn_request.specs.Pods.{PodLaws};

use kn_book::laws::book_laws;
use kn_laws::laws::{history_laws, step_laws};
use kn_record::facts::fact_laws;
use kn_sizes::server::{lasting_laws, need_laws, request_laws, starting_laws};

/// The laws of traces, as the server cites them.
pub fn server_laws()
    ensures request { RequestLaws }
    ensures pods { PodLaws }
{
    history_laws();
    step_laws();
    request_laws();
    lasting_laws();
    need_laws();
    starting_laws();
    fact_laws();
    book_laws();
}
