//! Room for so many statements, or operands.

ghost use Rattle.std.specs.Prelude.{◌≡◌};
ghost use Rattle.main_form.specs.Places.{one_more, room_for_64};

/// How many may still come, and the place of the first that was too many.
#[derive(Clone, Copy, Debug, PartialEq, Eq)]
pub(crate) struct Room {
    pub(crate) left: u32,
    pub(crate) over: Option<u32>,
}

impl Room {
    /// Room for 64.
    pub(crate) fn for_64() -> Room
        ensures { result ≡ room_for_64 }
    {
        Room {
            left: 64,
            over: None,
        }
    }

    /// One more comes, at this place.
    pub(crate) fn take(&mut self, at: u32)
        ensures { self.new ≡ one_more at self.old }
    {
        if self.over.is_some() {
            return;
        }
        if self.left == 0 {
            self.over = Some(at);
        } else {
            self.left -= 1;
        }
    }
}
