//! What a line says.
ghost use Rattle.std.specs.Prelude.{◌≡◌, ◌==◌, map, IfOk};
ghost use Rattle.std.specs.List.{slice_split};
ghost use Rattle.script_text.specs.Text.{is_nothing};
ghost use Rattle.script_text.specs.Reading.{keyword_of, set_of, thread_of, fix_of, create_of, read_of, put_of, unfix_of, scan_of, clean_of, checkpoint_of, words_say, line_says};

use crate::script::Command;
use crate::words::{bytes, page, range};
use page_ids::Field;
use page_ids::numerals::{number, number_u32};
use std::alloc::{AllocError, Global};

/// What a line says.
#[derive(Debug, Drop)]
pub enum Item {
    /// An empty line or a comment says nothing.
    Nothing,
    Set { setting: Field, value: u64 },
    Thread { number: u64 },
    Does { command: Command },
}

/// The first word of a line.
#[derive(Clone, Copy, Debug)]
pub enum Keyword {
    Set(Field),
    Thread,
    Fix,
    Create,
    Read,
    Put,
    Unfix,
    Scan,
    Clean,
    Checkpoint,
}

/// The keyword that a word is.
fn keyword_of(word: &[u8]) -> Option<Keyword>
    ensures { result ≡ keyword_of word.now }
{
    if word == b"page".as_slice() {
        Some(Keyword::Set(Field::Page))
    } else if word == b"instances".as_slice() {
        Some(Keyword::Set(Field::Instances))
    } else if word == b"frames".as_slice() {
        Some(Keyword::Set(Field::Frames))
    } else if word == b"size".as_slice() {
        Some(Keyword::Set(Field::Size))
    } else if word == b"max".as_slice() {
        Some(Keyword::Set(Field::Max))
    } else if word == b"old_pct".as_slice() {
        Some(Keyword::Set(Field::OldPct))
    } else if word == b"old_time".as_slice() {
        Some(Keyword::Set(Field::OldTime))
    } else if word == b"old_min".as_slice() {
        Some(Keyword::Set(Field::OldMin))
    } else if word == b"lsn".as_slice() {
        Some(Keyword::Set(Field::Lsn))
    } else if word == b"first".as_slice() {
        Some(Keyword::Set(Field::First))
    } else if word == b"thread".as_slice() {
        Some(Keyword::Thread)
    } else if word == b"fix".as_slice() {
        Some(Keyword::Fix)
    } else if word == b"create".as_slice() {
        Some(Keyword::Create)
    } else if word == b"read".as_slice() {
        Some(Keyword::Read)
    } else if word == b"put".as_slice() {
        Some(Keyword::Put)
    } else if word == b"unfix".as_slice() {
        Some(Keyword::Unfix)
    } else if word == b"scan".as_slice() {
        Some(Keyword::Scan)
    } else if word == b"clean".as_slice() {
        Some(Keyword::Clean)
    } else if word == b"checkpoint".as_slice() {
        Some(Keyword::Checkpoint)
    } else {
        None
    }
}

/// The word behind a setting's name.
fn set(setting: Field, args: &[&[u8]]) -> Option<Item>
    ensures { result ≡ set_of setting (map (λ w. w.now) args.now) }
{
    let [value] = args else {
        return None;
    };
    let value = number(u64::MAX, value)?;
    Some(Item::Set { setting, value })
}

/// The word behind `thread`.
fn thread(args: &[&[u8]]) -> Option<Item>
    ensures { result ≡ thread_of (map (λ w. w.now) args.now) }
{
    let [number_word] = args else {
        return None;
    };
    let number = number(u64::MAX, number_word)?;
    Some(Item::Thread { number })
}

/// The words behind `fix`; so for each command.
fn fix(args: &[&[u8]]) -> Option<Item>
    ensures { result ≡ fix_of (map (λ w. w.now) args.now) }
{
    let [p, now] = args else {
        return None;
    };
    let page = page(p)?;
    let now = number(u64::MAX, now)?;
    let command = Command::Fix { page, now };
    Some(Item::Does { command })
}

fn create(args: &[&[u8]]) -> Option<Item>
    ensures { result ≡ create_of (map (λ w. w.now) args.now) }
{
    let [p, now] = args else {
        return None;
    };
    let page = page(p)?;
    let now = number(u64::MAX, now)?;
    let command = Command::Create { page, now };
    Some(Item::Does { command })
}

fn read(args: &[&[u8]]) -> Option<Item>
    ensures { result ≡ read_of (map (λ w. w.now) args.now) }
{
    let [p, at, len] = args else {
        return None;
    };
    let page = page(p)?;
    let at = number_u32(at)?;
    let len = number_u32(len)?;
    let command = Command::Read { page, at, len };
    Some(Item::Does { command })
}

fn put(alloc: Global, args: &[&[u8]]) -> Result<Option<Item>, AllocError>
    ensures { IfOk result (λ found. found ≡ put_of (map (λ w. w.now) args.now)) }
{
    let [p, at, digits] = args else {
        return Ok(None);
    };
    let Some(page) = page(p) else {
        return Ok(None);
    };
    let Some(at) = number_u32(at) else {
        return Ok(None);
    };
    let Some(bytes) = bytes(alloc, digits)? else {
        return Ok(None);
    };
    let command = Command::Put { page, at, bytes };
    Ok(Some(Item::Does { command }))
}

fn unfix(args: &[&[u8]]) -> Option<Item>
    ensures { result ≡ unfix_of (map (λ w. w.now) args.now) }
{
    let [p] = args else {
        return None;
    };
    let page = page(p)?;
    let command = Command::Unfix { page };
    Some(Item::Does { command })
}

fn scan(args: &[&[u8]]) -> Option<Item>
    ensures { result ≡ scan_of (map (λ w. w.now) args.now) }
{
    let [pages, now] = args else {
        return None;
    };
    let (from, last) = range(pages)?;
    let now = number(u64::MAX, now)?;
    let command = Command::Scan { from, last, now };
    Some(Item::Does { command })
}

fn clean(args: &[&[u8]]) -> Option<Item>
    ensures { result ≡ clean_of (map (λ w. w.now) args.now) }
{
    let [bound] = args else {
        return None;
    };
    let bound = number_u32(bound)?;
    let command = Command::Clean { bound };
    Some(Item::Does { command })
}

fn checkpoint(args: &[&[u8]]) -> Option<Item>
    ensures { result ≡ checkpoint_of (map (λ w. w.now) args.now) }
{
    let [] = args else {
        return None;
    };
    let command = Command::Checkpoint;
    Some(Item::Does { command })
}

/// What words say.
fn said(alloc: Global, words: &[&[u8]]) -> Result<Option<Item>, AllocError>
    ensures { IfOk result (λ found. found ≡ words_say (map (λ w. w.now) words.now)) }
{
    let [first, args @ ..] = words else {
        return Ok(None);
    };
    let Some(keyword) = keyword_of(first) else {
        return Ok(None);
    };
    Ok(match keyword {
        Keyword::Set(setting) => set(setting, args),
        Keyword::Thread => thread(args),
        Keyword::Fix => fix(args),
        Keyword::Create => create(args),
        Keyword::Read => read(args),
        Keyword::Put => put(alloc, args)?,
        Keyword::Unfix => unfix(args),
        Keyword::Scan => scan(args),
        Keyword::Clean => clean(args),
        Keyword::Checkpoint => checkpoint(args),
    })
}

/// Whether a line is empty or a comment.
fn is_nothing(line: &[u8]) -> bool
    ensures { result ≡ is_nothing line.now }
{
    match line {
        [] => true,
        [first, ..] => *first == b'#',
    }
}

/// The words of a line.
fn words<'a>(alloc: Global, line: &'a [u8]) -> Result<Vec<&'a [u8]>, AllocError>
    ensures { IfOk result (λ words. map (λ w. w.now) words.items ≡ slice_split (λ x. x == 32) line.now) }
{
    line.split(|b| *b == b' ').collect(alloc)
}

/// What a line says, or `None` where it is no line of a script.
pub fn item_of(alloc: Global, line: &[u8]) -> Result<Option<Item>, AllocError>
    ensures { IfOk result (λ found. found ≡ line_says line.now) }
{
    if is_nothing(line) {
        return Ok(Some(Item::Nothing));
    }
    let words = words(alloc, line)?;
    said(alloc, words.as_slice())
}
