//! What is told of one request, and the text of it.
ghost use Rattle.std.specs.Prelude.{◌≡◌, ◌+◌, ◌-◌, ◌≤◌, ◌++◌, if◌then◌else◌, length, option_map};
ghost use Rattle.std.specs.Fmt.{decimal};
ghost use Rattle.kn_show_requests.specs.declared.told.Way.TheVariants as way;
ghost use Rattle.kn_show_requests.specs.Requests.{ended, live_told, refused};
ghost use Rattle.kn_show_requests.specs.Texts.{cell, ends_text, figures_text, line_text, outcome_word, way_word, words_text};

use kn_event::Line;
use kn_lives::Life;

/// How a request came to a pod.
#[derive(Clone, Copy)]
pub enum Way {
    /// Through the activator.
    Proxied,
    /// Past it.
    Direct,
    /// Not at all.
    Refused,
}

impl Way {
    fn word(self) -> &'static [u8]
        ensures value { result.now ≡ way_word self }
        ensures short { length result.now ≤ 7 }
    {
        match self {
            Way::Proxied => b"proxied",
            Way::Direct => b"direct",
            Way::Refused => b"refused",
        }
    }
}

/// What has come of a request.
#[derive(Clone, Copy)]
pub enum Outcome {
    Ok,
    Failed,
    Expired,
    Cancelled,
    Lost,
    QueueFull,
    Overload,
    Live,
}

impl Outcome {
    fn word(self) -> &'static [u8]
        ensures value { result.now ≡ outcome_word self }
        ensures short { length result.now ≤ 10 }
    {
        match self {
            Outcome::Ok => b"ok",
            Outcome::Failed => b"failed",
            Outcome::Expired => b"expired",
            Outcome::Cancelled => b"cancelled",
            Outcome::Lost => b"lost",
            Outcome::QueueFull => b"queue-full",
            Outcome::Overload => b"overload",
            Outcome::Live => b"live",
        }
    }
}

/// What is told of a request. Times are in milliseconds.
#[derive(Clone, Copy)]
pub struct Told {
    pub request: u64,
    /// The caller's tag.
    pub tag: u64,
    /// When it arrived.
    pub arrived: u64,
    pub way: Way,
    pub outcome: Outcome,
    /// When it ended.
    pub ended: Option<u64>,
    /// The pod that it was sent to, or that refused it.
    pub pod: Option<u64>,
    /// How long it waited until it ran, or ended.
    pub waited: Option<u64>,
    /// How long it ran.
    pub ran: Option<u64>,
}

impl Told {
    /// Of a request that is refused at this time, by a pod or before any.
    #[inline(always)]
    pub fn refused(request: u64, tag: u64, time: u64, outcome: Outcome, pod: Option<u64>) -> Told
        ensures { result ≡ refused request tag time outcome pod }
    {
        Told {
            request,
            tag,
            arrived: time,
            way: Way::Refused,
            outcome,
            ended: Some(time),
            pod,
            waited: Some(0),
            ran: None,
        }
    }

    /// Of a request that ends at this time.
    #[inline(always)]
    pub fn ended(request: u64, life: &Life, time: u64, outcome: Outcome) -> Told
        ensures { result ≡ ended request life.now time outcome }
    {
        let begun = life.begun.unwrap_or(time);
        Told {
            request,
            tag: life.tag,
            arrived: life.arrived,
            way: way_of(life),
            outcome,
            ended: Some(time),
            pod: life.pod,
            waited: Some(begun.saturating_sub(life.arrived)),
            ran: between(life.begun, time),
        }
    }

    /// Of a request that is live.
    pub fn live(request: u64, life: &Life) -> Told
        ensures { result ≡ live_told request life.now }
    {
        Told {
            request,
            tag: life.tag,
            arrived: life.arrived,
            way: way_of(life),
            outcome: Outcome::Live,
            ended: None,
            pod: life.pod,
            waited: since(life.arrived, life.begun),
            ran: None,
        }
    }

    /// Sets the line to what is told, with its LF.
    #[tactic(auto, using(crate::proofs::Pieces::three_pieces), unfolding(crate::specs::Texts::line_text))]
    #[inline(always)]
    pub fn set_line(&self, line: &mut Line)
        ensures { line.new ≡ line_text self.now }
    {
        line.clear();
        self.put_figures(line);
        self.put_words(line);
        self.put_ends(line);
    }

    #[tactic(auto, using(crate::proofs::Pieces::three_pieces), unfolding(crate::specs::Texts::figures_text))]
    #[inline(always)]
    fn put_figures(&self, line: &mut Line)
        requires { length line.old ≤ 0 }
        ensures value { line.new ≡ line.old ++ figures_text self.now }
        ensures short { length line.new ≤ 130 }
    {
        line.put_integer(self.request);
        put_cell(line, Some(self.tag));
        put_cell(line, Some(self.arrived));
    }

    #[tactic(auto, using(crate::proofs::Pieces::four_pieces), unfolding(crate::specs::Texts::words_text))]
    #[inline(always)]
    fn put_words(&self, line: &mut Line)
        requires { length line.old ≤ 130 }
        ensures value { line.new ≡ line.old ++ words_text self.now }
        ensures short { length line.new ≤ 150 }
    {
        line.put(b",");
        line.put(self.way.word());
        line.put(b",");
        line.put(self.outcome.word());
    }

    #[tactic(auto, using(crate::proofs::Pieces::five_pieces), unfolding(crate::specs::Texts::ends_text))]
    #[inline(always)]
    fn put_ends(&self, line: &mut Line)
        requires { length line.old ≤ 150 }
        ensures { line.new ≡ line.old ++ ends_text self.now }
    {
        put_cell(line, self.ended);
        put_cell(line, self.pod);
        put_cell(line, self.waited);
        put_cell(line, self.ran);
        line.put(b"\n");
    }
}

#[inline(always)]
fn way_of(life: &Life) -> Way
    ensures { result ≡ if life.now.direct then way.Direct else way.Proxied }
{
    if life.direct {
        Way::Direct
    } else {
        Way::Proxied
    }
}

/// From a time to this one.
#[inline(always)]
fn between(from: Option<u64>, time: u64) -> Option<u64>
    ensures { result ≡ option_map (λ t. time - t) from }
{
    match from {
        Some(from) => Some(time.saturating_sub(from)),
        None => None,
    }
}

/// From this time to another.
#[inline(always)]
fn since(time: u64, to: Option<u64>) -> Option<u64>
    ensures { result ≡ option_map (λ t. t - time) to }
{
    match to {
        Some(to) => Some(to.saturating_sub(time)),
        None => None,
    }
}

/// A number; one of a single digit without a buffer.
#[inline(always)]
fn put_number(line: &mut Line, n: u64)
    requires { length line.old ≤ 920 }
    ensures value { line.new ≡ line.old ++ decimal n }
    ensures short { length line.new ≤ length line.old + 40 }
{
    if n < 10 {
        line.put(&[b'0' + n as u8]);
        return;
    }
    line.put_integer(n);
}

/// A comma, and the number where there is one.
#[tactic(auto, using(std::proofs::Common::append_assoc))]
#[inline(always)]
fn put_cell(line: &mut Line, n: Option<u64>)
    requires { length line.old ≤ 900 }
    ensures value { line.new ≡ line.old ++ cell n }
    ensures short { length line.new ≤ length line.old + 41 }
{
    line.put(b",");
    if let Some(n) = n {
        put_number(line, n);
    }
}
