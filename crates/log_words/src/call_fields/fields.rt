//! What the fields and flags of each call say.

ghost use Rattle.std.specs.Prelude.{◌≡◌};
ghost use Rattle.log_words.specs.call_fields.Fields.{ack_in, set_any, set_entry, set_entry_flag, set_entry_hidden, set_fetching};
ghost use Rattle.log_words.specs.call_fields.Fields.{set_md, set_md_hidden, set_opening, set_queue};
ghost use Rattle.log_words.specs.call_fields.Fields.{set_sending, set_sizes, set_start, set_swapping};

use crate::call_fields::said::{EntrySaid, MdSaid, Opening, QueueSaid, StartName, StartSaid};
use crate::{Flaw, HasFields, Word, amount_in, bytes_in, flag_in, name_in, small_in};
use coll_text::is;
use ptl_types::{AckRequest, Entry, PutArgs};

/// The acknowledgement that a word asks for.
#[tactic(auto, unfolding(crate::specs::call_fields::Fields::ack_in))]
fn ack(value: Option<Word>) -> Result<AckRequest, Flaw>
    ensures { result ≡ ack_in value.entry }
{
    let Some(word) = value else {
        return Err(Flaw::BadWord);
    };
    let text = word.text();
    if is(text, b"none") {
        Ok(AckRequest::NoAck)
    } else if is(text, b"ct") {
        Ok(AckRequest::CtAck)
    } else if is(text, b"full") {
        Ok(AckRequest::Ack)
    } else {
        Err(Flaw::BadWord)
    }
}

/// Lengths, and the region.
#[tactic(auto, unfolding(crate::specs::call_fields::Fields::set_sizes))]
fn with_sizes<'a>(
    mut said: Opening<'a>,
    key: &[u8],
    value: Option<Word<'a>>,
) -> Result<Opening<'a>, Flaw>
    ensures { result ≡ set_sizes key.now value.entry said.entry }
{
    if is(key, b"msg") {
        said.limits.msg = amount_in(value)?;
        return Ok(said);
    }
    if is(key, b"atomic") {
        said.limits.atomic = amount_in(value)?;
        return Ok(said);
    }
    if is(key, b"fetch") {
        said.limits.fetch_atomic = amount_in(value)?;
        return Ok(said);
    }
    if is(key, b"region") {
        said.region = Some(bytes_in(value)?);
        return Ok(said);
    }
    Err(Flaw::BadWord)
}

impl<'a> HasFields<'a> for Opening<'a> {
    ghost set = { set_opening };

    #[tactic(auto, unfolding(crate::specs::call_fields::Fields::set_opening))]
    fn with(mut self, key: &[u8], value: Option<Word<'a>>) -> Result<Self, Flaw> {
        if is(key, b"entries") {
            self.limits.entries = small_in(value)?;
            return Ok(self);
        }
        if is(key, b"unexpected") {
            self.limits.unexpected = small_in(value)?;
            return Ok(self);
        }
        if is(key, b"mds") {
            self.limits.mds = small_in(value)?;
            return Ok(self);
        }
        if is(key, b"cts") {
            self.limits.cts = small_in(value)?;
            return Ok(self);
        }
        if is(key, b"eqs") {
            self.limits.eqs = small_in(value)?;
            return Ok(self);
        }
        if is(key, b"pts") {
            self.limits.pts = small_in(value)?;
            return Ok(self);
        }
        if is(key, b"triggered") {
            self.limits.triggered = small_in(value)?;
            return Ok(self);
        }
        with_sizes(self, key, value)
    }
}

/// The flags of an entry.
#[tactic(auto, unfolding(crate::specs::call_fields::Fields::set_entry_flag))]
fn with_entry_flag<'a>(
    mut said: EntrySaid<'a>,
    key: &[u8],
    value: Option<Word<'a>>,
) -> Result<EntrySaid<'a>, Flaw>
    ensures { result ≡ set_entry_flag key.now value.entry said.entry }
{
    if is(key, b"put") {
        said.entry.allow_put = flag_in(value)?;
        return Ok(said);
    }
    if is(key, b"get") {
        said.entry.allow_get = flag_in(value)?;
        return Ok(said);
    }
    if is(key, b"once") {
        said.entry.use_once = flag_in(value)?;
        return Ok(said);
    }
    if is(key, b"local") {
        said.entry.manage_local = flag_in(value)?;
        return Ok(said);
    }
    if is(key, b"no_truncate") {
        said.entry.no_truncate = flag_in(value)?;
        return Ok(said);
    }
    if is(key, b"comm") {
        said.entry.count_comm = flag_in(value)?;
        return Ok(said);
    }
    if is(key, b"overflow") {
        said.entry.count_overflow = flag_in(value)?;
        return Ok(said);
    }
    with_entry_hidden(said, key, value)
}

/// The events that an entry hides.
#[tactic(auto, unfolding(crate::specs::call_fields::Fields::set_entry_hidden))]
fn with_entry_hidden<'a>(
    mut said: EntrySaid<'a>,
    key: &[u8],
    value: Option<Word<'a>>,
) -> Result<EntrySaid<'a>, Flaw>
    ensures { result ≡ set_entry_hidden key.now value.entry said.entry }
{
    if is(key, b"hide_link") {
        said.entry.hidden.link = flag_in(value)?;
        return Ok(said);
    }
    if is(key, b"hide_unlink") {
        said.entry.hidden.unlink = flag_in(value)?;
        return Ok(said);
    }
    if is(key, b"hide_comm") {
        said.entry.hidden.comm = flag_in(value)?;
        return Ok(said);
    }
    if is(key, b"hide_overflow") {
        said.entry.hidden.overflow = flag_in(value)?;
        return Ok(said);
    }
    if is(key, b"hide_success") {
        said.entry.hidden.success = flag_in(value)?;
        return Ok(said);
    }
    Err(Flaw::BadWord)
}

impl<'a> HasFields<'a> for EntrySaid<'a> {
    ghost set = { set_entry };

    #[tactic(auto, unfolding(crate::specs::call_fields::Fields::set_entry))]
    fn with(mut self, key: &[u8], value: Option<Word<'a>>) -> Result<Self, Flaw> {
        if is(key, b"start") {
            self.entry.start = amount_in(value)?;
            return Ok(self);
        }
        if is(key, b"length") {
            self.entry.length = amount_in(value)?;
            return Ok(self);
        }
        if is(key, b"bits") {
            self.entry.match_bits = amount_in(value)?;
            return Ok(self);
        }
        if is(key, b"ignore") {
            self.entry.ignore_bits = amount_in(value)?;
            return Ok(self);
        }
        if is(key, b"source") {
            let source = small_in(value)?;
            self.entry = Entry {
                match_id: Some(source),
                ..self.entry
            };
            return Ok(self);
        }
        if is(key, b"ct") {
            self.ct = Some(name_in(value)?);
            return Ok(self);
        }
        if is(key, b"min_free") {
            self.entry.min_free = amount_in(value)?;
            return Ok(self);
        }
        with_entry_flag(self, key, value)
    }
}

impl<'a> HasFields<'a> for MdSaid<'a> {
    ghost set = { set_md };

    #[tactic(auto, unfolding(crate::specs::call_fields::Fields::set_md))]
    fn with(mut self, key: &[u8], value: Option<Word<'a>>) -> Result<Self, Flaw> {
        if is(key, b"start") {
            self.md.start = amount_in(value)?;
            return Ok(self);
        }
        if is(key, b"length") {
            self.md.length = amount_in(value)?;
            return Ok(self);
        }
        if is(key, b"eq") {
            self.eq = Some(name_in(value)?);
            return Ok(self);
        }
        if is(key, b"ct") {
            self.ct = Some(name_in(value)?);
            return Ok(self);
        }
        if is(key, b"send") {
            self.md.count_send = flag_in(value)?;
            return Ok(self);
        }
        if is(key, b"reply") {
            self.md.count_reply = flag_in(value)?;
            return Ok(self);
        }
        if is(key, b"ack") {
            self.md.count_ack = flag_in(value)?;
            return Ok(self);
        }
        with_md_hidden(self, key, value)
    }
}

/// The events that a descriptor hides.
#[tactic(auto, unfolding(crate::specs::call_fields::Fields::set_md_hidden))]
fn with_md_hidden<'a>(
    mut said: MdSaid<'a>,
    key: &[u8],
    value: Option<Word<'a>>,
) -> Result<MdSaid<'a>, Flaw>
    ensures { result ≡ set_md_hidden key.now value.entry said.entry }
{
    if is(key, b"hide_send") {
        said.md.hidden.send = flag_in(value)?;
        return Ok(said);
    }
    if is(key, b"hide_success") {
        said.md.hidden.success = flag_in(value)?;
        return Ok(said);
    }
    Err(Flaw::BadWord)
}

impl<'a> HasFields<'a> for QueueSaid<'a> {
    ghost set = { set_queue };

    #[tactic(auto, unfolding(crate::specs::call_fields::Fields::set_queue))]
    fn with(mut self, key: &[u8], value: Option<Word<'a>>) -> Result<Self, Flaw> {
        if is(key, b"eq") {
            self.eq = Some(name_in(value)?);
            return Ok(self);
        }
        Err(Flaw::BadWord)
    }
}

impl<'a> HasFields<'a> for StartSaid<'a> {
    ghost set = { set_start };

    #[tactic(auto, unfolding(crate::specs::call_fields::Fields::set_start))]
    fn with(self, key: &[u8], value: Option<Word<'a>>) -> Result<Self, Flaw> {
        match self.name {
            StartName::Get => with_any(self, key, value),
            StartName::Put | StartName::Atomic => with_sending(self, key, value),
            StartName::FetchAtomic => with_fetching(self, key, value),
            StartName::Swap => with_swapping(self, key, value),
        }
    }
}

/// What each start may name.
#[tactic(auto, unfolding(crate::specs::call_fields::Fields::set_any))]
fn with_any<'a>(
    mut said: StartSaid<'a>,
    key: &[u8],
    value: Option<Word<'a>>,
) -> Result<StartSaid<'a>, Flaw>
    ensures { result ≡ set_any key.now value.entry said.entry }
{
    if is(key, b"offset") {
        said.args.local_offset = amount_in(value)?;
        return Ok(said);
    }
    if is(key, b"length") {
        said.args.length = amount_in(value)?;
        return Ok(said);
    }
    if is(key, b"target") {
        said.args.target = small_in(value)?;
        return Ok(said);
    }
    if is(key, b"pt") {
        said.args.pt = small_in(value)?;
        return Ok(said);
    }
    if is(key, b"bits") {
        said.args.match_bits = amount_in(value)?;
        return Ok(said);
    }
    if is(key, b"at") {
        said.args.remote_offset = amount_in(value)?;
        return Ok(said);
    }
    Err(Flaw::BadWord)
}

/// And beside that what sends: it may ask for an acknowledgement, and has header data.
#[tactic(auto, unfolding(crate::specs::call_fields::Fields::set_sending))]
fn with_sending<'a>(
    mut said: StartSaid<'a>,
    key: &[u8],
    value: Option<Word<'a>>,
) -> Result<StartSaid<'a>, Flaw>
    ensures { result ≡ set_sending key.now value.entry said.entry }
{
    if is(key, b"ack") {
        let ack = ack(value)?;
        said.args = PutArgs { ack, ..said.args };
        return Ok(said);
    }
    if is(key, b"data") {
        said.args.hdr_data = amount_in(value)?;
        return Ok(said);
    }
    with_any(said, key, value)
}

/// And beside that what fetches: it has a descriptor for the reply, and what the getting half names otherwise.
#[tactic(auto, unfolding(crate::specs::call_fields::Fields::set_fetching))]
fn with_fetching<'a>(
    mut said: StartSaid<'a>,
    key: &[u8],
    value: Option<Word<'a>>,
) -> Result<StartSaid<'a>, Flaw>
    ensures { result ≡ set_fetching key.now value.entry said.entry }
{
    if is(key, b"back") {
        said.back = Some(name_in(value)?);
        return Ok(said);
    }
    if is(key, b"back_offset") {
        said.back_offset = amount_in(value)?;
        return Ok(said);
    }
    if is(key, b"back_length") {
        said.back_length = Some(amount_in(value)?);
        return Ok(said);
    }
    if is(key, b"back_target") {
        said.back_target = Some(small_in(value)?);
        return Ok(said);
    }
    if is(key, b"back_pt") {
        said.back_pt = Some(small_in(value)?);
        return Ok(said);
    }
    if is(key, b"back_bits") {
        said.back_bits = Some(amount_in(value)?);
        return Ok(said);
    }
    if is(key, b"back_at") {
        said.back_at = Some(amount_in(value)?);
        return Ok(said);
    }
    with_sending(said, key, value)
}

/// And beside that a swap, which has an operand.
#[tactic(auto, unfolding(crate::specs::call_fields::Fields::set_swapping))]
fn with_swapping<'a>(
    mut said: StartSaid<'a>,
    key: &[u8],
    value: Option<Word<'a>>,
) -> Result<StartSaid<'a>, Flaw>
    ensures { result ≡ set_swapping key.now value.entry said.entry }
{
    if is(key, b"operand") {
        said.operand = amount_in(value)?;
        return Ok(said);
    }
    with_fetching(said, key, value)
}
