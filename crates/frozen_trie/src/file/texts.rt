//! A map from byte strings as a file.
ghost use Rattle.std.specs.Prelude.{◌≡◌, [], List, Some, ⊤, IfErr, IfOk, IfSome, OnOk, take, ℕ};
ghost use Rattle.std.specs.Io.KnownBytes.{Appends, IsAtEnd};
ghost use Rattle.nibble_map.specs.Maps.{PairMap};
ghost use Rattle.nibble_map.specs.Nibbles.{nibbles};
ghost use Rattle.radix_trie.specs.Views.{pairs_below};
ghost use Rattle.frozen_trie.specs.FileRows.{WritesPart};
ghost use Rattle.frozen_trie.specs.Files.{AreItems, IsSameTextMap, IsTextFault, IsTextFileable, RefusesRow, no_items, pair_rows, text_file};

use crate::file::item::append;
use crate::file::reading::read_all;
use crate::file::rows::{Rows, made, refused};
use crate::file::writing::write_all;
use crate::file::{FileError, FileItem, FileWhy};
use crate::texts::FrozenTexts;
use radix_keys::Memory;
use std::alloc::Global;
use std::io;
use std::io::{Read, Write};

impl<V: FileItem + Drop> Rows for FrozenTexts<V> {
    ghost rows = { λ m. pair_rows (λ bytes. bytes) V.file_bytes (pairs_below m []) };

    ghost are_items = { λ m n. AreItems (λ _. ⊤) V.is_item (take n (pairs_below m [])) };

    ghost is_kept = { λ _. ⊤ };

    ghost refuses = { RefusesRow (λ bytes. bytes) V.file_bytes (λ _. ⊤) V.is_item nibbles };

    ghost none_before = { λ m. no_items (λ _. ⊤) V.is_item (pairs_below m []) };

    fn count(&self) -> usize {
        self.len()
    }

    fn alloc(&self) -> Global {
        self.allocator()
    }

    fn put_row(&self, at: usize, key: &mut Vec<u8>, value: &mut Vec<u8>) -> Result<(), Memory> {
        let (bytes, item) = self.pair_at(at);
        key.clear();
        append(bytes, key)?;
        value.clear();
        item.append_to(value)
    }

    fn push_row(&mut self, key: &[u8], value: &[u8]) -> Result<(), FileWhy> {
        self.is_of_its_pairs();
        let value = made::<V>(value, self.allocator(), FileWhy::Value)?;
        match self.push(key, value) {
            Ok(()) => Ok(()),
            Err(error) => Err(refused(error.why)),
        }
    }

    fn close(&mut self) -> Result<(), FileWhy> {
        match self.finish() {
            Ok(()) => Ok(()),
            Err(_) => Err(FileWhy::Memory),
        }
    }
}

/// As a file.
impl<V: FileItem + Drop> FrozenTexts<V> {
    /// Writes the map as a file: `FROZENTX`, the version 2 in 4 bytes, the count of pairs in 8;
    /// then for each pair, in the order of the keys, the count of the key's bytes in 4 bytes, the
    /// key, the count of the value's bytes in 4, and these. The low bytes of a number come first.
    ///
    /// A write that is interrupted is made again. `out` is written to twice for each key and value,
    /// so it should have a buffer.
    ///
    /// # Errors
    ///
    /// A write fails, or takes no byte. `OutOfMemory`, where an allocation for a pair's bytes
    /// fails; `InvalidInput`, where a value takes 2^32 bytes or more. What was written until then
    /// is a beginning of the file.
    pub fn write<W: Write>(&self, out: &mut W) -> io::Result<()>
        ensures written { OnOk result (Appends (W.contents out.old) (W.contents out.new)
            (text_file V.file_bytes self.now)) }
        ensures part { WritesPart (W.contents out.old) (W.contents out.new)
            (text_file V.file_bytes self.now) }
        ensures fileable { OnOk result (IsTextFileable V.file_bytes V.is_item self.now) }
    {
        self.is_of_its_pairs();
        write_all(out, self)
    }

    /// The map whose file a reader gives, which ends with the file. A read that is interrupted is
    /// made again.
    ///
    /// Nothing is taken on trust: memory is asked for as bytes come, and by no count or length
    /// alone.
    ///
    /// # Errors
    ///
    /// The bytes are no file, the reader fails, or an allocation fails: `FileError` says why, and
    /// where. Nothing of the file is taken then.
    pub fn read<R: Read>(alloc: Global, input: &mut R) -> Result<FrozenTexts<V>, FileError>
        ensures file { IfOk result (λ texts. IfSome (R.remaining input.old)
            (λ bytes. bytes ≡ text_file V.file_bytes texts)) }
        ensures fileable { IfOk result (IsTextFileable V.file_bytes V.is_item) }
        ensures same { IfOk result (λ texts. (m : PairMap (List ℕ) V)
            → IsTextFileable V.file_bytes V.is_item m
            → R.remaining input.old ≡ Some (text_file V.file_bytes m)
            → IsSameTextMap V.is_same texts m) }
        ensures fault { IfErr result (λ e. IfSome (R.remaining input.old)
            (λ bytes. IsTextFault V.file_bytes V.is_item e.why bytes e.pair e.place)) }
        ensures end { OnOk result (IsAtEnd (R.remaining input.new)) }
    {
        let texts: FrozenTexts<V> = read_all(input, FrozenTexts::new(alloc))?;
        texts.is_of_its_pairs();
        Ok(texts)
    }
}
