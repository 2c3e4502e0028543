//! Lists as the catalog names them, read and written.

use crate::catalog::ListEntry;
use crate::parts::{Part, many_at, write_many};
use crate::places::word_at;
use std::alloc::{AllocError, Global};

impl Part for u32 {
    ghost use Rattle.std.specs.Int.{w32, to_be_bytes};
    ghost use Rattle.oc_model.specs.Spelling.{is_word};
    ghost use Rattle.oc_model.proofs.CatalogTold.{word_told};

    ghost test = { is_word };

    ghost spell = { to_be_bytes w32 };

    fn read(_alloc: Global, bytes: &[u8], at: usize) -> Result<Option<(Self, usize)>, AllocError> {
        Ok(word_at(bytes, at))
    }

    fn write(&self, out: &mut Vec<u8>) -> Result<(), AllocError> {
        out.extend_from_slice(&self.to_be_bytes())?;
        Ok(())
    }

    ghost told = { word_told };
}

impl Part for ListEntry {
    ghost use Rattle.oc_catalog.specs.Drafts.{entry_bytes, is_entry};
    ghost use Rattle.oc_catalog.specs.Telling.{entries_tell};

    ghost test = { is_entry };

    ghost spell = { entry_bytes };

    fn read(alloc: Global, bytes: &[u8], at: usize) -> Result<Option<(Self, usize)>, AllocError> {
        let Some((id, from)) = word_at(bytes, at) else {
            return Ok(None);
        };
        let Some((segments, to)) = many_at::<u32>(alloc, bytes, from)? else {
            return Ok(None);
        };
        Ok(Some((ListEntry { id, segments }, to)))
    }

    fn write(&self, out: &mut Vec<u8>) -> Result<(), AllocError> {
        out.extend_from_slice(&self.id.to_be_bytes())?;
        write_many(self.segments.as_slice(), out)?;
        Ok(())
    }

    ghost told = { entries_tell };
}
