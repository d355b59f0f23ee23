//! Fields of a head by their names.
ghost use Rattle.std.specs.Prelude.{◌≡◌};
ghost use Rattle.kn_head.specs.Fields.{hop_names, chunk_names, is_among};

use kn_http::{is_named, is_of_connection};

/// Whether a field belongs to one connection or is set by Knative itself.
pub(crate) fn is_hop(name: &[u8]) -> bool
    ensures { result ≡ is_among hop_names name.now }
{
    is_of_connection(name)
        || is_named(name, "te")
        || is_named(name, "upgrade")
        || is_named(name, "k-proxy-request")
        || is_named(name, "knative-serving-namespace")
        || is_named(name, "knative-serving-revision")
}

/// Whether a field speaks of chunks.
pub(crate) fn is_of_chunks(name: &[u8]) -> bool
    ensures { result ≡ is_among chunk_names name.now }
{
    is_named(name, "transfer-encoding") || is_named(name, "trailer")
}
