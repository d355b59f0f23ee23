//! What requests are answered.
ghost use Rattle.std.specs.Prelude.{◌≡◌, ◌+◌, ◌≤◌, ◌++◌, ◌∷◌, length, codes, if◌then◌else◌, []};
ghost use Rattle.std.specs.Fmt.{decimal};
ghost use Rattle.http.specs.StatusCode.{code_digits};
ghost use Rattle.kn_page.specs.Answers.{allow_line, answer_head, answer_text, code_of, field_line, plain_text, ready_reply, reply_status, status_line, reply_text, reply_type};

use crate::sheet::Sheet;
use http::StatusCode;

/// What a request is answered.
#[derive(Clone, Copy)]
pub enum Reply {
    Healthy,
    Ready,
    Stopping,
    Metrics,
    NotFound,
    NotAllowed,
    BadRequest,
}

impl Reply {
    fn status(self) -> StatusCode
        ensures { result ≡ code_of self }
    {
        match self {
            Reply::Healthy => StatusCode::OK,
            Reply::Ready => StatusCode::OK,
            Reply::Stopping => StatusCode::SERVICE_UNAVAILABLE,
            Reply::Metrics => StatusCode::OK,
            Reply::NotFound => StatusCode::NOT_FOUND,
            Reply::NotAllowed => StatusCode::METHOD_NOT_ALLOWED,
            Reply::BadRequest => StatusCode::BAD_REQUEST,
        }
    }

    /// The phrase of the first line, in at most 28 bytes.
    fn phrase(self) -> &'static str
        ensures value { code_digits (code_of self) ++ (32 ∷ result.now) ≡ reply_status self }
        ensures short { length result.now ≤ 28 }
    {
        self.status().canonical_reason().unwrap_or("")
    }

    /// What the text is, in at most 48 bytes.
    fn content_type(self) -> &'static [u8]
        ensures value { result.now ≡ reply_type self }
        ensures short { length result.now ≤ 48 }
    {
        match self {
            Reply::Metrics => b"text/plain; version=0.0.4; charset=utf-8",
            _ => b"text/plain; charset=utf-8",
        }
    }

    /// The text, at most 32 bytes. Metrics have another each time.
    fn text(self) -> &'static [u8]
        ensures value { result.now ≡ reply_text self }
        ensures short { length result.now ≤ 32 }
    {
        match self {
            Reply::Healthy => b"ok\n",
            Reply::Ready => b"ready\n",
            Reply::Stopping => b"stopping\n",
            Reply::Metrics => b"",
            Reply::NotFound => b"not found\n",
            Reply::NotAllowed => b"method not allowed\n",
            Reply::BadRequest => b"bad request\n",
        }
    }
}

/// Whether a server that stops, or doesn't, takes requests.
pub fn ready_reply(stopping: bool) -> Reply
    ensures { result ≡ ready_reply stopping }
{
    if stopping {
        Reply::Stopping
    } else {
        Reply::Ready
    }
}

fn put_status(sheet: &mut Sheet, reply: Reply)
    requires { length sheet.old ≤ 100 }
    ensures value { sheet.new ≡ sheet.old ++ status_line reply }
    ensures short { length sheet.new ≤ length sheet.old + 43 }
{
    sheet.put(b"HTTP/1.1 ");
    sheet.put(reply.status().as_str().as_bytes());
    sheet.put(b" ");
    sheet.put(reply.phrase().as_bytes());
    sheet.put(b"\r\n");
}

#[tactic(auto, using(std::proofs::Common::append_assoc), unfolding(crate::specs::Answers::field_line))]
fn put_field(sheet: &mut Sheet, name: &[u8], value: &[u8])
    requires { length sheet.old + length name.now + length value.now ≤ 1000 }
    ensures value { sheet.new ≡ sheet.old ++ field_line name.now value.now }
    ensures short { length sheet.new ≤ length sheet.old + length name.now + length value.now + 4 }
{
    sheet.put(name);
    sheet.put(b": ");
    sheet.put(value);
    sheet.put(b"\r\n");
}

#[tactic(auto, using(std::proofs::Common::append_assoc), unfolding(crate::specs::Answers::field_line))]
fn put_length(sheet: &mut Sheet, n: usize)
    requires { length sheet.old ≤ 1000 }
    ensures value { sheet.new ≡ sheet.old ++ field_line (codes "Content-Length") (decimal n) }
    ensures short { length sheet.new ≤ length sheet.old + 58 }
{
    sheet.put(b"Content-Length");
    sheet.put(b": ");
    sheet.put_number(n as u128);
    sheet.put(b"\r\n");
}

/// Which methods may be used, where another was.
#[tactic(auto, using(crate::proofs::Pieces::nothing))]
fn put_allow(sheet: &mut Sheet, reply: Reply)
    requires { length sheet.old ≤ 900 }
    ensures value { sheet.new ≡ sheet.old ++ allow_line reply }
    ensures short { length sheet.new ≤ length sheet.old + 18 }
{
    if reply == Reply::NotAllowed {
        put_field(sheet, b"Allow", b"GET, HEAD");
    }
}

#[tactic(auto, using(std::proofs::Common::append_assoc), unfolding(crate::specs::Answers::answer_head))]
fn put_head(sheet: &mut Sheet, reply: Reply, n: usize)
    requires { length sheet.old ≡ 0 }
    ensures value { sheet.new ≡ sheet.old ++ answer_head reply n }
    ensures short { length sheet.new ≤ 300 }
{
    put_status(sheet, reply);
    put_field(sheet, b"Content-Type", reply.content_type());
    put_length(sheet, n);
    put_allow(sheet, reply);
    put_field(sheet, b"Connection", b"close");
    sheet.put(b"\r\n");
}

#[tactic(auto, using(crate::proofs::Pieces::nothing))]
fn put_body(sheet: &mut Sheet, wants: bool, body: &[u8])
    requires { length sheet.old + length body.now ≤ 8192 }
    ensures { sheet.new ≡ sheet.old ++ (if wants then body.now else []) }
{
    if wants {
        sheet.put(body);
    }
}

/// Sets the sheet to an answer, whatever it held before: its head, and the body where that is wanted.
#[tactic(auto, using(std::proofs::Common::append_assoc), unfolding(crate::specs::Answers::answer_text))]
pub fn write_answer(sheet: &mut Sheet, reply: Reply, wants: bool, body: &[u8])
    requires { length body.now ≤ 7800 }
    ensures { sheet.new ≡ answer_text reply wants body.now }
{
    sheet.clear();
    put_head(sheet, reply, body.len());
    put_body(sheet, wants, body);
}

/// The same, with the reply's own text.
pub fn write_plain(sheet: &mut Sheet, reply: Reply, wants: bool)
    ensures { sheet.new ≡ plain_text reply wants }
{
    write_answer(sheet, reply, wants, reply.text());
}
