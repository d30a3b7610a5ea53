//! The words of the program `pet-keep`.
ghost use Rattle.std.specs.Prelude.{◌≡◌, ◌↔◌, Err, None, Some, IfOk, option_map};
ghost use Rattle.pet_text.specs.KeepWords.{keep_of, keep_words_of};
ghost use Rattle.pet_text.specs.Words.{texts_of, end_of, session_of};
ghost use Rattle.pet_text.specs.inside.KeepForms.{keep_in};

use crate::end::{End, own_end, read_end};
use crate::files::are_receive_files;
use crate::name::Name;
use crate::session::read_session;
use crate::words::WordsFault;
use outside_routes::Route;
use std::alloc::{AllocError, Global};

/// What the words of `pet-keep` name.
#[derive(Drop, Debug)]
pub struct KeepWords {
    /// Where the datagrams come from.
    pub from: End,
    /// The number of the session.
    pub session: [u8; 8],
    /// The file of the journal.
    pub journal: Name,
    /// The file of the store, which differs from that of the journal.
    pub store: Name,
}

/// The same, while the texts still stand in the words.
#[derive(Clone, Copy)]
pub(crate) struct KeepForm<'a> {
    pub(crate) from: Route<'a>,
    pub(crate) session: [u8; 8],
    pub(crate) journal: &'a str,
    pub(crate) store: &'a str,
}

/// Reads the words of `pet-keep`, without the program's name: exactly those that have its form.
pub fn read_keep_words(alloc: Global, words: &[String]) -> Result<KeepWords, WordsFault>
    ensures usage { (result ≡ Err WordsFault.Usage) ↔ (keep_words_of (texts_of words.now) ≡ None) }
    ensures words { IfOk result (λ keep. keep_words_of (texts_of words.now) ≡ Some keep) }
{
    let Some(form) = keep_form(words) else {
        return Err(WordsFault::Usage);
    };
    let words = own_keep(alloc, form)?;
    Ok(words)
}

/// The form of `FROM SESSION JOURNAL STORE`, where the words have it.
fn keep_form(words: &[String]) -> Option<KeepForm<'_>>
    ensures { option_map keep_in result ≡ keep_words_of (texts_of words.now) }
{
    match words {
        [from, session, journal, store] => four_keep_words(
            from.as_str(),
            session.as_str(),
            journal.as_str(),
            store.as_str(),
        ),
        _ => None,
    }
}

/// The form of these four words.
fn four_keep_words<'a>(
    from: &'a str,
    session: &str,
    journal: &'a str,
    store: &'a str,
) -> Option<KeepForm<'a>>
    ensures { option_map keep_in result
        ≡ keep_of (end_of 0 from.now) (session_of session.now) journal.now store.now }
{
    let from = read_end(from, 0)?;
    let session = read_session(session)?;
    if !are_receive_files(from, journal, store) {
        return None;
    }
    Some(KeepForm {
        from,
        session,
        journal,
        store,
    })
}

/// The words of a form, with copies of its texts.
fn own_keep(alloc: Global, form: KeepForm<'_>) -> Result<KeepWords, AllocError>
    ensures { IfOk result (λ words. words ≡ keep_in form.entry) }
{
    Ok(KeepWords {
        from: own_end(alloc, form.from)?,
        session: form.session,
        journal: Name::new(alloc, form.journal)?,
        store: Name::new(alloc, form.store)?,
    })
}
