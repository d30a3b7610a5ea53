//! What the files of a command are asked for: names, and another for each that is written.
ghost use Rattle.std.specs.Prelude.{◌≡◌, ◌&&◌};
ghost use Rattle.std.specs.Str.{bytes_eq};
ghost use Rattle.pet_text.specs.Words.{is_name, other_end, send_apart, receive_files, relay_apart};
ghost use Rattle.pet_text.specs.Ends.{end_in};

use outside_routes::Route;

/// Whether two files that are read have names, and a file that is written is another than both.
pub(crate) fn are_send_files(stream: &str, priority: &str, to: Route<'_>) -> bool
    ensures { result ≡ ((is_name stream.now && is_name priority.now) && send_apart stream.now priority.now (end_in to.entry)) }
{
    if stream.is_empty() || priority.is_empty() {
        return false;
    }
    is_other(stream, to) && is_other(priority, to)
}

/// Whether two files that are written have names, each another than the other and than a file that is read.
pub(crate) fn are_receive_files(from: Route<'_>, layers: &str, store: &str) -> bool
    ensures { result ≡ receive_files (end_in from.entry) layers.now store.now }
{
    if layers.is_empty() || store.is_empty() {
        return false;
    }
    is_other(layers, from) && is_other(store, from) && !same(layers, store)
}

/// Whether one of the two is a file, and not both are one and the same.
pub(crate) fn are_relay_files(from: Route<'_>, to: Route<'_>) -> bool
    ensures { result ≡ relay_apart (end_in from.entry) (end_in to.entry) }
{
    match (from, to) {
        (Route::File(from), Route::File(to)) => !same(from, to),
        (Route::Udp(_), Route::Udp(_)) => false,
        (Route::File(_), Route::Udp(_)) | (Route::Udp(_), Route::File(_)) => true,
    }
}

/// Whether a file at this end is another than this one.
pub(crate) fn is_other(file: &str, end: Route<'_>) -> bool
    ensures { result ≡ other_end file.now (end_in end.entry) }
{
    match end {
        Route::File(name) => !same(name, file),
        Route::Udp(_) => true,
    }
}

/// Whether two texts are one.
pub(crate) fn same(first: &str, second: &str) -> bool
    ensures { result ≡ bytes_eq first.now second.now }
{
    first == second
}
