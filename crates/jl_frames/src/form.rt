//! The tags of frames (JVMS 4.7.4).

ghost use Rattle.std.specs.Prelude.{◌≡◌};
ghost use Rattle.jl_frames.specs.Tags.{tag_rows as rows_of_tags, form_of as form_of_tag};

/// The form of a frame, which its tag says (JVMS 4.7.4).
#[derive(Clone, Copy, Debug, PartialEq, Eq)]
pub enum Form {
    /// `same_frame`: the tag is the difference of the offsets.
    Same,
    /// `same_locals_1_stack_item_frame`: the tag is 64 more than the difference, and an item follows.
    One,
    /// `same_locals_1_stack_item_frame_extended`: the difference follows, and an item.
    OneExtended,
    /// `chop_frame`: 251 less the tag is the number of locals that go, and the difference follows.
    Chop,
    /// `same_frame_extended`: the difference follows.
    SameExtended,
    /// `append_frame`: the difference follows, and the tag less 251 is the number of items behind it.
    Append,
    /// `full_frame`: the difference follows, then the locals and the stack, each behind their number.
    Full,
}

/// The tags of one form, from the first to the last.
#[derive(Clone, Copy, Debug, PartialEq, Eq)]
pub struct TagRow {
    pub first: u8,
    pub last: u8,
    pub form: Form,
}

macro_rules! tag_rows {
    ($($first:literal to $last:literal is $form:ident,)*) => {
        [$(TagRow { first: $first, last: $last, form: Form::$form }),*]
    };
}

/// The tags that frames have, in rising order.
#[tactic(auto, unfolding(crate::specs::Tags::tag_rows))]
fn tag_rows() -> &'static [TagRow]
    ensures { result.now ≡ rows_of_tags }
{
    static ROWS: [TagRow; 7] = tag_rows! {
        0 to 63 is Same,
        64 to 127 is One,
        247 to 247 is OneExtended,
        248 to 250 is Chop,
        251 to 251 is SameExtended,
        252 to 254 is Append,
        255 to 255 is Full,
    };
    &ROWS
}

/// The form of the frames with a tag.
pub fn form_of(tag: u8) -> Option<Form>
    ensures { result ≡ form_of_tag tag }
{
    tag_rows()
        .iter()
        .find(|row| row.first <= tag && tag <= row.last)
        .map(|row| row.form)
}
