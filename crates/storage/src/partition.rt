// Partitions, from storage.rs: `Partition::table_capacity` and `Partition::offset_of` over lent lists of
// offsets, sizes and name lengths and the names' bytes, with the test that an opening makes of them.
ghost use Rattle.std.specs.Prelude.{◌≡◌};
ghost use Rattle.std.specs.Iterator.{YieldsFirstBy, item_count};
ghost use Rattle.storage.specs.Partition.{part_end, parts, table_of, lists_ok, end_of, find, lookup};
ghost use Rattle.storage.specs.Parts.{part_of, rest_of};

use crate::lent::{Iter, Partition, Partitions};
use crate::types::CallError;
use text::token::before_semicolon;
use text::trim::trim;
use text::utf8::is_utf8;

impl<'a> Iterator for Iter<'a> {
    type Item = Partition<'a>;

    ghost next_gives = { YieldsFirstBy part_of rest_of };

    ghost remaining = { item_count rest_of };

    // A name is as long as its length says, or as the names' bytes go.
    #[tactic(auto, unfolding(crate::specs::Partition::parts_of))]
    fn next(&mut self) -> Option<Partition<'a>> {
        let (offset, offsets) = self.offsets.split_first()?;
        let (size, sizes) = self.sizes.split_first()?;
        let (len, lens) = self.lens.split_first()?;
        let (name, names) = self.names.split_at(self.names.len().min(*len as usize));
        *self = Iter {
            offsets,
            sizes,
            lens,
            names,
        };
        Some(Partition {
            name,
            offset: *offset,
            size: *size,
        })
    }
}

impl Partition<'_> {
    // Where it ends, if an opening takes it: a name of at most 64 bytes that is UTF-8, and an end of at most 2^31.
    #[tactic(auto, unfolding(crate::specs::Partition::part_end, crate::specs::Partition::part_ok))]
    fn end(&self) -> Option<u64>
        ensures { result ≡ part_end (part_of self.now) }
    {
        let end = self.offset.checked_add(self.size)?;
        if self.name.len() <= 64 && end <= 2147483648 && is_utf8(self.name) {
            Some(end)
        } else {
            None
        }
    }
}

impl<'a> Partitions<'a> {
    /// The partitions one after the other, as far as all of the lists go.
    #[tactic(auto, unfolding(crate::specs::Partition::parts))]
    pub fn iter(&self) -> Iter<'a>
        ensures { rest_of result ≡ parts self.now }
    {
        Iter {
            offsets: self.offsets,
            sizes: self.sizes,
            lens: self.lens,
            names: self.names,
        }
    }

    // The largest end, if an opening would take the lists: one walk for `fit`, `end` and the opening of a NOR.
    // In line, as `fit`, since every write and read asks for it.
    #[inline(always)]
    pub(crate) fn walk(&self) -> Option<u64>
        ensures { result ≡ table_of self.now }
    {
        let n = self.offsets.len();
        if n > 32 || self.sizes.len() != n || self.lens.len() != n {
            return None;
        }
        let mut names = self.names;
        let mut end = 0;
        for ((offset, size), len) in self.offsets.iter().zip(self.sizes).zip(self.lens) {
            let (name, rest) = names.split_at_checked(*len as usize)?;
            let partition = Partition {
                name,
                offset: *offset,
                size: *size,
            };
            end = partition.end()?.max(end);
            names = rest;
        }
        names.is_empty().then_some(end)
    }

    /// Would an opening take the lists: at most 32 partitions, lists and name bytes of like length, each name
    /// UTF-8 of at most 64 bytes, each end at most 2^31.
    #[tactic(auto, unfolding(crate::specs::Partition::table_of))]
    #[inline(always)]
    pub fn fit(&self) -> bool
        ensures { result ≡ lists_ok self.now }
    {
        self.walk().is_some()
    }

    /// The largest end of a partition, in bytes: `Partition::table_capacity`. It is 0 where there is none, and
    /// for lists that an opening would refuse.
    #[tactic(auto, unfolding(crate::specs::Partition::table_of, crate::specs::Partition::end_of))]
    pub fn end(&self) -> u64
        ensures { result ≡ end_of self.now }
    {
        self.walk().unwrap_or(0)
    }

    // Where the first partition of exactly this name starts.
    fn start_of(&self, name: &[u8]) -> Option<u64>
        ensures { result ≡ find name.now (parts self.now) }
    {
        self.iter().find(|p| p.name == name).map(|p| p.offset)
    }

    /// Where the partition starts that a text names, the part before its first `;` without the white space
    /// around it: `Partition::offset_of`. A text that is not UTF-8 names none. Refused for lists that an
    /// opening would refuse.
    #[tactic(auto, unfolding(crate::specs::Partition::lookup, crate::specs::Partition::wanted))]
    pub fn lookup(&self, name: &[u8]) -> Result<Option<u64>, CallError>
        ensures { result ≡ lookup self.now name.now }
    {
        if !self.fit() {
            return Err(CallError::Refused);
        }
        if !is_utf8(name) {
            return Ok(None);
        }
        Ok(self.start_of(trim(before_semicolon(name))))
    }
}
