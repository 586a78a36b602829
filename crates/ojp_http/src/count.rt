//! Counting the lines of a head, by bytes and by runs of bytes.
ghost use Rattle.std.specs.Prelude.{◌≡◌, ◌<◌, ◌-◌, ◌^◌, ◌+◌, ◌*◌, length, true};
ghost use Rattle.ojp_http.specs.Bodies.{has_no_feed};
ghost use Rattle.ojp_http.specs.LineCounts.{no_lines, begun_step, begun_run, count_end, count_from, count_step, is_full_by};

/// The most bytes of a head or of a trailer.
pub const HEAD_LIMIT: usize = 16_384;

/// What stands of the line that has begun.
#[derive(Clone, Copy, Debug, PartialEq, Eq)]
pub enum Begun {
    Nothing,
    Return,
    Other,
}

impl Begun {
    /// The line after one more byte that is no line feed.
    fn after(self, byte: u8) -> Begun
        ensures { result ≡ begun_step self byte }
    {
        match self {
            Begun::Nothing if byte == b'\r' => Begun::Return,
            _ => Begun::Other,
        }
    }

    /// The line after a run of bytes without a line feed.
    fn after_run(self, run: &[u8]) -> Begun
        ensures { result ≡ begun_run self run.now }
    {
        if run.is_empty() {
            return self;
        }
        if run.len() == 1 {
            return self.after(run[0]);
        }
        Begun::Other
    }
}

/// How many lines were counted, which are those from the first that is not empty on, and whether one
/// of them is empty.
#[derive(Clone, Copy, Debug, PartialEq, Eq)]
pub struct LineCount {
    pub begun: Begun,
    pub counted: usize,
    pub has_empty: bool,
}

impl LineCount {
    /// Before the first byte.
    pub fn new() -> LineCount
        ensures { result ≡ no_lines }
    {
        LineCount {
            begun: Begun::Nothing,
            counted: 0,
            has_empty: false,
        }
    }

    /// After a line feed.
    fn after_line(self) -> LineCount
        requires { self.counted < 2 ^ 64 - 1 }
        ensures { result ≡ count_end self }
    {
        let is_empty = !matches!(self.begun, Begun::Other);
        if is_empty && self.counted == 0 {
            return LineCount {
                begun: Begun::Nothing,
                counted: 0,
                has_empty: self.has_empty,
            };
        }
        LineCount {
            begun: Begun::Nothing,
            counted: self.counted + 1,
            has_empty: self.has_empty || is_empty,
        }
    }

    /// After one more byte.
    pub fn after(self, byte: u8) -> LineCount
        requires { self.counted < 2 ^ 64 - 1 }
        ensures { result ≡ count_step self byte }
    {
        if byte == b'\n' {
            return self.after_line();
        }
        LineCount {
            begun: self.begun.after(byte),
            counted: self.counted,
            has_empty: self.has_empty,
        }
    }

    /// After a run of bytes without a line feed.
    pub fn after_run(self, run: &[u8]) -> LineCount
        requires { has_no_feed run.now ≡ true }
        ensures { result ≡ count_from self run.now }
    {
        LineCount {
            begun: self.begun.after_run(run),
            counted: self.counted,
            has_empty: self.has_empty,
        }
    }

    /// Whether `len` bytes with these lines are full, where `most` lines without an empty one are.
    pub fn is_full(self, most: usize, len: usize) -> bool
        ensures { result ≡ is_full_by most len self }
    {
        len >= HEAD_LIMIT || (self.counted >= most && !self.has_empty)
    }
}
