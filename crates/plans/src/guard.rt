ghost use Rattle.std.specs.Prelude.{◌≡◌, ◌<◌, slice_set};

// A row of a table that is narrowed for a while: the drop writes the saved row back.
pub(crate) struct Narrowed<'a> {
    pub(crate) rows: &'a mut [u64; 24],
    pub(crate) unit: usize,
    pub(crate) saved: u64,
}

impl Drop for Narrowed<'_> {
    fn drop(self)
        requires { self.unit < 24 }
        ensures { self.exit.0.now ≡ slice_set self.entry.rows.now self.entry.unit self.entry.saved }
    {
        self.rows[self.unit] = self.saved;
        let Narrowed {
            rows: _,
            unit: _,
            saved: _,
        } = self;
    }
}
