// Three ranges of code points, first and last of each.
ghost use Rattle.std.specs.Prelude.{◌≡◌};
ghost use Rattle.xid.specs.Row.{bounds};
ghost use Rattle.xid.specs.Ranges.{holds};

#[derive(Clone, Copy)]
pub(crate) struct Row(pub u32, pub u32, pub u32, pub u32, pub u32, pub u32);

// Whether one of them holds c.
pub(crate) fn within(row: Row, c: u32) -> bool
    ensures { result ≡ holds (bounds row) c }
{
    ((row.0 <= c) & (c <= row.1)) | ((row.2 <= c) & (c <= row.3)) | ((row.4 <= c) & (c <= row.5))
}
