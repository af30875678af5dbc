//! The order of names.
ghost use Rattle.std.specs.Prelude.{◌≡◌, option_copied};
ghost use Rattle.rsct_packet.specs.Text.{name_lt};
ghost use Rattle.view_state.specs.Codec.{is_after};

/// Is the first name less?
pub fn is_less(first: &[u8], second: &[u8]) -> bool
    ensures { result ≡ name_lt first.now second.now }
{
    first.cmp(second).is_lt()
}

/// Does the name come after the last one, if there was one?
pub fn is_after(last: Option<&[u8]>, name: &[u8]) -> bool
    ensures { result ≡ is_after (option_copied last.entry) name.now }
{
    match last {
        None => true,
        Some(last) => is_less(last, name),
    }
}
