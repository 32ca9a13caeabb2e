// Steps through the two arrays of a file together, duct by duct, and borrows the file's bytes.
ghost use Rattle.std.specs.Prelude.{◌≡◌, ◌*◌, ◌≤◌, length};
ghost use Rattle.planfile.specs.Format.{duct_count};

use plan::ducts::Duct;

// What is left of the two arrays: 4 bytes a duct of the first and 6 of the second.
#[derive(Drop)]
pub(crate) struct Reader<'a> {
    // the ducts' ends
    ends: &'a [u8],
    // the ducts' sizes, that is lengths and bores
    sizes: &'a [u8],
    ghost few: { duct_count ends.now ≤ 1024 },
    ghost fours: { length ends.now ≡ 4 * duct_count ends.now },
    ghost sixes: { length sizes.now ≡ 6 * duct_count ends.now },
}

impl<'a> Reader<'a> {
    ghost use Rattle.std.specs.Prelude.{◌+◌};
    ghost use Rattle.planfile.specs.Format.{ducts_in};
    ghost use Rattle.planfile.specs.Reading.{to_come};

    // A reader of the `n` ducts of a file. The second array is the part of the file from byte 4 + 4 * n on.
    pub(crate) fn open(bytes: &'a [u8], n: usize) -> Reader<'a>
        requires few { n ≤ 1024 }
        requires exact { length bytes.now ≡ 4 + 10 * n }
        ensures { to_come result ≡ ducts_in bytes.now n }
    {
        Reader {
            ends: &bytes[4..4 + 4 * n],
            sizes: &bytes[4 + 4 * n..],
        }
    }
}

impl Iterator for Reader<'_> {
    type Item = Duct;

    ghost use Rattle.std.specs.Iterator.{YieldsFirst, item_count};
    ghost use Rattle.planfile.specs.Reading.{to_come};

    ghost next_gives = { YieldsFirst to_come };

    ghost remaining = { item_count to_come };

    // The next duct, if there is one more.
    fn next(&mut self) -> Option<Duct> {
        let [a, b, c, d, ends @ ..] = self.ends else {
            return None;
        };
        let [e, f, g, h, i, j, sizes @ ..] = self.sizes else {
            return None;
        };
        self.ends = ends;
        self.sizes = sizes;
        Some(Duct {
            first: u16::from_le_bytes([*a, *b]),
            second: u16::from_le_bytes([*c, *d]),
            length: u32::from_le_bytes([*e, *f, *g, *h]),
            bore: u16::from_le_bytes([*i, *j]),
        })
    }
}
