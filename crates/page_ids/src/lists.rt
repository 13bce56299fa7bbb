//! The lists that stand inside events and commands: bytes, ids, and frames with words.
ghost use Rattle.std.specs.Prelude.{◌≡◌, length, Some};

use crate::frame_word::Word;
use crate::ids::PageId;
use std::fmt;
use std::marker::Model;

/// Bytes, seen by contracts as a list.
#[derive(Debug, Drop)]
pub struct Bytes {
    items: Vec<u8>,
}

impl Model for Bytes {
    ghost use Rattle.std.specs.Prelude.{List, ℕ};

    ghost Value = { List ℕ };

    ghost view = { λ b. b.items.items };
}

impl Bytes {
    /// The list of a vector; takes no memory.
    pub fn of(items: Vec<u8>) -> Bytes
        ensures { result ≡ items.items }
    {
        Bytes { items }
    }

    /// The bytes, lent.
    pub fn as_slice(&self) -> &[u8]
        ensures { result.now ≡ self.now }
    {
        self.items.as_slice()
    }

    /// Becomes the list of `from`, which is as long; takes no memory.
    pub fn fill(&mut self, from: &[u8])
        requires { length from.now ≡ length self.old }
        ensures { self.new ≡ from.now }
    {
        self.items.as_mut_slice().copy_from_slice(from);
    }
}

impl PartialEq for Bytes {
    ghost use Rattle.std.specs.Str.{bytes_eq};
    ghost use Rattle.std.proofs.Common.{rules};
    ghost use Rattle.std.specs.Cmp.Rules.{comparing};

    ghost eq = { bytes_eq };

    ghost laws = { Prim.search (comparing, rules) };

    fn eq(&self, other: &Bytes) -> bool {
        self.items.as_slice() == other.items.as_slice()
    }
}

impl Eq for Bytes {
    ghost use Rattle.std.proofs.Common.{rules};
    ghost use Rattle.std.specs.Cmp.Rules.{comparing};

    ghost laws = { Prim.search (comparing, rules) };
}

/// Two lower-case hexadecimal digits for each byte.
impl fmt::Display for Bytes {
    ghost use Rattle.page_ids.specs.Spelling.{hex};

    ghost output = { λ b. Some (hex b) };

    fn fmt<W: fmt::Write>(&self, f: &mut fmt::Formatter<W>) -> fmt::Result {
        let bytes = self.as_slice();
        for byte in bytes {
            write!(f, "{byte:02x}")?;
        }
        Ok(())
    }
}

/// Page ids, seen by contracts as a list.
#[derive(Debug, Drop)]
pub struct Ids {
    items: Vec<PageId>,
}

impl Model for Ids {
    ghost use Rattle.std.specs.Prelude.{List};
    ghost use Rattle.page_ids.specs.declared.ids.PageId.{PageId};

    ghost Value = { List PageId };

    ghost view = { λ i. i.items.items };
}

impl Ids {
    /// The list of a vector; takes no memory.
    pub fn of(items: Vec<PageId>) -> Ids
        ensures { result ≡ items.items }
    {
        Ids { items }
    }

    /// The ids, lent.
    pub fn as_slice(&self) -> &[PageId]
        ensures { result.now ≡ self.now }
    {
        self.items.as_slice()
    }
}

impl PartialEq for Ids {
    ghost use Rattle.std.specs.Prelude.{◌==◌};
    ghost use Rattle.std.specs.Cmp.Lexicographic.{pointwise};
    ghost use Rattle.std.specs.Ordering.{on, eq_of_both};
    ghost use Rattle.page_ids.specs.declared.ids.PageId.{PageId};
    ghost use Rattle.std.proofs.Common.{rules};
    ghost use Rattle.std.specs.Cmp.Rules.{comparing};

    ghost eq = { pointwise (eq_of_both (on (λ (p : PageId). p.space) ◌==◌) (on (λ (p : PageId). p.page) ◌==◌)) };

    ghost laws = { Prim.search (comparing, rules) };

    fn eq(&self, other: &Ids) -> bool {
        self.items.as_slice() == other.items.as_slice()
    }
}

impl Eq for Ids {
    ghost use Rattle.std.proofs.Common.{rules};
    ghost use Rattle.std.specs.Cmp.Rules.{comparing};

    ghost laws = { Prim.search (comparing, rules) };
}

/// Frames with their words, seen by contracts as a list of pairs.
#[derive(Debug, Drop)]
pub struct Words {
    items: Vec<(u32, Word)>,
}

impl Model for Words {
    ghost use Rattle.std.specs.Prelude.{List, ℕ};
    ghost use Rattle.page_ids.specs.declared.frame_word.Word.{Word};

    ghost Value = { List (ℕ × Word) };

    ghost view = { λ w. w.items.items };
}

impl Words {
    /// The list of a vector; takes no memory.
    pub fn of(items: Vec<(u32, Word)>) -> Words
        ensures { result ≡ items.items }
    {
        Words { items }
    }

    /// The frames with their words, lent.
    pub fn as_slice(&self) -> &[(u32, Word)]
        ensures { result.now ≡ self.now }
    {
        self.items.as_slice()
    }
}

impl PartialEq for Words {
    ghost use Rattle.std.specs.Prelude.{◌==◌, ℕ};
    ghost use Rattle.std.specs.Cmp.Lexicographic.{pointwise};
    ghost use Rattle.std.specs.Ordering.{on, eq_of_both};
    ghost use Rattle.page_ids.specs.declared.frame_word.Word.{Word};
    ghost use Rattle.std.proofs.Common.{rules};
    ghost use Rattle.std.specs.Cmp.Rules.{comparing};

    ghost eq = { pointwise (eq_of_both (on (λ (w : ℕ × Word). w.0) ◌==◌) (on (λ (w : ℕ × Word). w.1.bits) ◌==◌)) };

    ghost laws = { Prim.search (comparing, rules) };

    fn eq(&self, other: &Words) -> bool {
        self.items.as_slice() == other.items.as_slice()
    }
}

impl Eq for Words {
    ghost use Rattle.std.proofs.Common.{rules};
    ghost use Rattle.std.specs.Cmp.Rules.{comparing};

    ghost laws = { Prim.search (comparing, rules) };
}

/// Ids with commas between them; a dash where there is none.
impl fmt::Display for Ids {
    ghost use Rattle.page_ids.specs.Spelling.{ids_text};

    ghost output = { λ ids. Some (ids_text ids) };

    fn fmt<W: fmt::Write>(&self, f: &mut fmt::Formatter<W>) -> fmt::Result {
        let [first, others @ ..] = self.as_slice() else {
            return write!(f, "-");
        };
        write!(f, "{first}")?;
        for id in others {
            write!(f, ",{id}")?;
        }
        Ok(())
    }
}

/// Pairs as `2=5/R/1` with commas between them; a dash where there is none.
impl fmt::Display for Words {
    ghost use Rattle.page_ids.specs.Spelling.{words_text};

    ghost output = { λ words. Some (words_text words) };

    fn fmt<W: fmt::Write>(&self, f: &mut fmt::Formatter<W>) -> fmt::Result {
        let [(frame, word), others @ ..] = self.as_slice() else {
            return write!(f, "-");
        };
        write!(f, "{frame}={word}")?;
        for (frame, word) in others {
            write!(f, ",{frame}={word}")?;
        }
        Ok(())
    }
}
