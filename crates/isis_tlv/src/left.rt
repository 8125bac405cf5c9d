//! The octets that a walk has left.
ghost use Rattle.std.specs.Prelude.{◌≡◌, ◌+◌, ◌^◌, ◌<◌, ◌≤◌, ◌==◌, [], length, drop};

/// The octets that a walk has left, and the place of the first of them.
#[derive(Clone, Copy, Debug)]
pub(crate) struct Left<'a> {
    pub(crate) octets: &'a [u8],
    pub(crate) place: usize,
    pub ghost fits: { place + length octets.now < 2 ^ 64 },
}

impl<'a> Left<'a> {
    /// Whether no octet is left.
    pub(crate) fn is_done(&self) -> bool
        ensures { result ≡ (length self.now.octets.now == 0) }
    {
        self.octets.is_empty()
    }

    /// Goes past so many octets.
    pub(crate) fn pass(&mut self, count: usize)
        requires { count ≤ length self.old.octets.now }
        ensures octets { self.new.octets.now ≡ drop count self.old.octets.now }
        ensures place { self.new.place ≡ self.old.place + count }
    {
        self.octets = &self.octets[count..];
        self.place += count;
    }

    /// Lets the octets be, so that the walk ends. Answers the place where it stood.
    pub(crate) fn stop(&mut self) -> usize
        ensures octets { self.new.octets.now ≡ [] }
        ensures place { result ≡ self.old.place }
    {
        self.octets = &[];
        self.place
    }
}
