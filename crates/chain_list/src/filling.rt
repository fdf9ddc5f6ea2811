//! A list made longer by entries that hold nothing.
ghost use Rattle.std.specs.Prelude.{◌≡◌, ◌-◌, ◌≤◌, ◌++◌, None, replicate, vec_len, vec_capacity};

/// Makes the list as long as `len`, with nothing in each further entry.
pub(crate) fn fill_up<T>(entries: &mut Vec<Option<T>>, len: usize)
    requires order { vec_len entries.old ≤ len }
    requires room { len ≤ vec_capacity entries.old }
    ensures items { entries.new.items ≡ entries.old.items ++ replicate (len - vec_len entries.old) None }
    ensures len { vec_len entries.new ≡ len }
    ensures capacity { vec_capacity entries.new ≡ vec_capacity entries.old }
{
    for _place in entries.len()..len {
        entries.push_reserved(None);
    }
}
