//! The options of `stay`, by name and range.
ghost use Rattle.std.specs.Prelude.{◌≡◌};
ghost use Rattle.kn_plan.specs.StayOptions.{least_of, most_of, name_of, range_text};

/// An option of `stay`.
#[derive(Clone, Copy)]
pub enum StayOption {
    Listen,
    Pods,
    Slots,
    Room,
    Idle,
    Read,
    Status,
}

impl StayOption {
    /// Its name, which stands behind `--`.
    pub fn name(self) -> &'static str
        ensures { result.now ≡ name_of self }
    {
        match self {
            StayOption::Listen => "listen",
            StayOption::Pods => "pods",
            StayOption::Slots => "slots",
            StayOption::Room => "room",
            StayOption::Idle => "idle",
            StayOption::Read => "read",
            StayOption::Status => "status",
        }
    }

    /// The least number that it takes, or the fewest addresses.
    pub fn least(self) -> u64
        ensures { result ≡ least_of self }
    {
        match self {
            StayOption::Room => 1_000,
            _ => 1,
        }
    }

    /// The greatest number that it takes, or the most addresses.
    pub fn most(self) -> u64
        ensures { result ≡ most_of self }
    {
        match self {
            StayOption::Listen => 1,
            StayOption::Pods => 500,
            StayOption::Slots => 1_024,
            StayOption::Room => 1_000_000,
            StayOption::Idle => 3_600,
            StayOption::Read => 3_600,
            StayOption::Status => 1,
        }
    }

    /// What is said of its values, behind its name.
    pub(crate) fn range_text(self) -> &'static str
        ensures { result.now ≡ range_text self }
    {
        match self {
            StayOption::Listen => " is HOST:PORT\n",
            StayOption::Pods => " is 1 to 500 of HOST:PORT, parted by commas\n",
            StayOption::Slots => " is 1 to 1024\n",
            StayOption::Room => " is 1000 to 1000000\n",
            StayOption::Idle => " is 1 to 3600, in seconds\n",
            StayOption::Read => " is 1 to 3600, in seconds\n",
            StayOption::Status => " is HOST:PORT\n",
        }
    }
}
