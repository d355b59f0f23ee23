//! What a request asks for.
ghost use Rattle.std.specs.Prelude.{◌≡◌, ◌||◌, bytes_eq, codes, position};
ghost use Rattle.kn_page.specs.Asking.{asked_of, is_question, page_at, path_of, wanted_by};

/// What a request asks for.
#[derive(Clone, Copy)]
pub enum Wanted {
    /// `/healthz`: whether the server lives.
    Health,
    /// `/ready`: whether it takes requests.
    Ready,
    /// `/metrics`.
    Metrics,
    /// A path at which there is nothing.
    Nothing,
    /// One of the three, by a method other than GET and HEAD.
    Other,
    /// The request has no good head.
    NoHead,
}

/// What a request asks for, and whether it wants the body of the answer.
#[derive(Clone, Copy)]
pub struct Asked {
    pub wanted: Wanted,
    /// It does, but by HEAD.
    pub body: bool,
}

/// What is asked for where there is no good head.
pub const NO_HEAD: Asked = Asked {
    wanted: Wanted::NoHead,
    body: true,
};

/// Where the first `?` is.
fn question(target: &[u8]) -> Option<usize>
    ensures { result ≡ position is_question target.now }
{
    target.iter().position(|b| *b == b'?')
}

/// What stands before a `?`.
fn path_of(target: &[u8]) -> &[u8]
    ensures { result.now ≡ path_of target.now }
{
    match question(target) {
        Some(end) => &target[..end],
        None => target,
    }
}

/// What is at the path.
#[tactic(auto, unfolding(crate::specs::Asking::page_at))]
fn page_at(path: &[u8]) -> Wanted
    ensures { result ≡ page_at path.now }
{
    if path == b"/healthz".as_slice() {
        return Wanted::Health;
    }
    if path == b"/ready".as_slice() {
        return Wanted::Ready;
    }
    if path == b"/metrics".as_slice() {
        return Wanted::Metrics;
    }
    Wanted::Nothing
}

fn is_get(method: &[u8]) -> bool
    ensures { result ≡ bytes_eq method.now (codes "GET") }
{
    method == b"GET".as_slice()
}

fn is_head(method: &[u8]) -> bool
    ensures { result ≡ bytes_eq method.now (codes "HEAD") }
{
    method == b"HEAD".as_slice()
}

/// What is asked for at a page by a method that may be used there or may not.
fn wanted_by(may: bool, page: Wanted) -> Wanted
    ensures { result ≡ wanted_by may page }
{
    if may || page == Wanted::Nothing {
        page
    } else {
        Wanted::Other
    }
}

/// What a request of this method and target asks for.
#[tactic(auto, unfolding(crate::specs::Asking::asked_of))]
pub fn asked_of(method: &[u8], target: &[u8]) -> Asked
    ensures { result ≡ asked_of method.now target.now }
{
    let head = is_head(method);
    let page = page_at(path_of(target));
    Asked {
        wanted: wanted_by(head || is_get(method), page),
        body: !head,
    }
}
