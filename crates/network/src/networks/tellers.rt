// What a network tells.
ghost use Rattle.std.specs.Prelude.{◌≡◌};

use super::super::entries::Entry;
use super::Network;

impl Network {
    // n, the number of its columns and of its rows.
    pub fn size(&self) -> u16
        ensures { result ≡ self.now.n }
    {
        self.n
    }

    // Its entries, by column, then by row.
    pub fn entries(&self) -> &[Entry]
        ensures { result.now ≡ self.now.entries.items }
    {
        self.entries.as_slice()
    }
}
