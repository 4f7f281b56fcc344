//! A frozen trie as a file.
ghost use Rattle.std.specs.Prelude.{◌≡◌, [], Some, IfErr, IfOk, IfSome, OnOk, take};
ghost use Rattle.std.specs.Io.KnownBytes.{Appends, IsAtEnd};
ghost use Rattle.nibble_map.specs.Maps.{PairMap};
ghost use Rattle.radix_trie.specs.Keys.{IsKeyed};
ghost use Rattle.radix_trie.specs.Views.{pairs_below};
ghost use Rattle.frozen_trie.specs.FileRows.{WritesPart};
ghost use Rattle.frozen_trie.specs.Files.{AreItems, IsFileFault, IsFileable, IsSameMap, RefusesRow, file_of, no_items, pair_rows};

use crate::file::reading::read_all;
use crate::file::rows::{Rows, made, refused};
use crate::file::writing::write_all;
use crate::file::{FileError, FileItem, FileWhy};
use crate::frozen::FrozenTrie;
use crate::slices::entry_at;
use radix_keys::{Memory, TrieKey};
use std::alloc::Global;
use std::io;
use std::io::{Read, Write};

impl<K: TrieKey + FileItem + Drop, V: FileItem + Drop> Rows for FrozenTrie<K, V> {
    ghost rows = { λ m. pair_rows K.file_bytes V.file_bytes (pairs_below m []) };

    ghost are_items = { λ m n. AreItems K.is_item V.is_item (take n (pairs_below m [])) };

    ghost is_kept = { IsKeyed K.encoding K.is_value };

    ghost refuses = { RefusesRow K.file_bytes V.file_bytes K.is_item V.is_item K.encoding };

    ghost none_before = { λ m. no_items K.is_item V.is_item (pairs_below m []) };

    fn count(&self) -> usize {
        self.len()
    }

    fn alloc(&self) -> Global {
        self.allocator()
    }

    fn put_row(&self, at: usize, key: &mut Vec<u8>, value: &mut Vec<u8>) -> Result<(), Memory> {
        let (own, item) = entry_at(self.pairs(), at);
        key.clear();
        own.append_to(key)?;
        value.clear();
        item.append_to(value)
    }

    fn push_row(&mut self, key: &[u8], value: &[u8]) -> Result<(), FileWhy> {
        self.is_of_its_pairs();
        let key = made::<K>(key, self.allocator(), FileWhy::Key)?;
        let value = made::<V>(value, self.allocator(), FileWhy::Value)?;
        match self.push(key, value) {
            Ok(()) => Ok(()),
            Err(error) => Err(refused(error.why)),
        }
    }

    fn close(&mut self) -> Result<(), FileWhy> {
        match self.finish() {
            Ok(()) => Ok(()),
            Err(_) => Err(FileWhy::Memory),
        }
    }
}

/// As a file.
impl<K: TrieKey + FileItem + Drop, V: FileItem + Drop> FrozenTrie<K, V> {
    /// Writes the frozen trie as a file, as `FrozenTexts::write` writes a map: the pairs in the
    /// order of their encodings, and of each the bytes that `FileItem` names, those of the key and
    /// those of the value.
    ///
    /// A write that is interrupted is made again. `out` is written to twice for each key and value,
    /// so it should have a buffer.
    ///
    /// # Errors
    ///
    /// A write fails, or takes no byte. `OutOfMemory`, where an allocation for a pair's bytes
    /// fails; `InvalidInput`, where a key or a value takes 2^32 bytes or more. What was written
    /// until then is a beginning of the file.
    ///
    /// # Examples
    ///
    /// ```
    /// # use nifazombi::frozen_trie::FrozenTrie;
    /// # use nifazombi::rattle_std::{alloc::Global, prelude::Vec};
    /// let mut codes: FrozenTrie<u16, u64> = FrozenTrie::new(Global);
    /// codes.push(7, 1)?;
    /// let mut file = Vec::new(Global);
    /// codes.write(&mut file)?;
    /// let Ok(again) = FrozenTrie::<u16, u64>::read(Global, &mut file.as_slice()) else {
    ///     panic!("the file is whole");
    /// };
    /// assert_eq!(again.get(&7u16)?, Some(&1));
    /// # Ok::<(), Box<dyn std::error::Error>>(())
    /// ```
    pub fn write<W: Write>(&self, out: &mut W) -> io::Result<()>
        ensures written { OnOk result (Appends (W.contents out.old) (W.contents out.new)
            (file_of K.file_bytes V.file_bytes self.now)) }
        ensures part { WritesPart (W.contents out.old) (W.contents out.new)
            (file_of K.file_bytes V.file_bytes self.now) }
        ensures fileable { OnOk result (IsFileable K.file_bytes V.file_bytes K.is_item V.is_item
            K.encoding self.now) }
    {
        self.is_of_its_pairs();
        write_all(out, self)
    }

    /// The frozen trie whose file a reader gives, which ends with the file. A read that is
    /// interrupted is made again.
    ///
    /// Nothing is taken on trust: memory is asked for as bytes come, and by no count or length
    /// alone.
    ///
    /// # Errors
    ///
    /// The bytes are no file, the reader fails, or an allocation fails: `FileError` says why, and
    /// where. Nothing of the file is taken then.
    pub fn read<R: Read>(alloc: Global, input: &mut R) -> Result<FrozenTrie<K, V>, FileError>
        ensures file { IfOk result (λ frozen. IfSome (R.remaining input.old)
            (λ bytes. bytes ≡ file_of K.file_bytes V.file_bytes frozen)) }
        ensures fileable { IfOk result (IsFileable K.file_bytes V.file_bytes K.is_item V.is_item
            K.encoding) }
        ensures keyed { IfOk result (IsKeyed K.encoding K.is_value) }
        ensures same { IfOk result (λ frozen. (m : PairMap K V)
            → IsFileable K.file_bytes V.file_bytes K.is_item V.is_item K.encoding m
            → R.remaining input.old ≡ Some (file_of K.file_bytes V.file_bytes m)
            → IsSameMap K.is_same V.is_same frozen m) }
        ensures fault { IfErr result (λ e. IfSome (R.remaining input.old)
            (λ bytes. IsFileFault K.file_bytes V.file_bytes K.is_item V.is_item K.encoding
            e.why bytes e.pair e.place)) }
        ensures end { OnOk result (IsAtEnd (R.remaining input.new)) }
    {
        let frozen: FrozenTrie<K, V> = read_all(input, FrozenTrie::new(alloc))?;
        frozen.is_of_its_pairs();
        Ok(frozen)
    }
}
