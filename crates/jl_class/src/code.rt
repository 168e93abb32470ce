//! Code attributes (JVMS 4.7.3), with their StackMapTable attributes (JVMS 4.7.4).

ghost use Rattle.std.specs.Prelude.{◌≡◌, [], drop, Ok};
ghost use Rattle.jl_reading.specs.Reading.{each_at};
ghost use Rattle.jl_logic.specs.Answers.{Gives};
ghost use Rattle.jl_classfile.specs.Places.{Reads};
ghost use Rattle.jl_class.specs.Faults.{told};
ghost use Rattle.jl_class.specs.Reading as reading;

use crate::attribute::{SiteReader, named, one_at};
use crate::fault::ClassFault;
use crate::member::CodeBytes;
use crate::source::Source;
use jl_classfile::Place;
use jl_optable::AttrForm;
use jl_pool::Pool;
use jl_prim::{Handler, Items, Name};
use std::alloc::Global;

/// The code that the bytes from a place on have, all of them, in the attribute at another.
#[tactic(auto, unfolding(crate::specs::Reading::code_at))]
pub fn code_of(
    alloc: Global,
    pool: &Pool,
    attribute: usize,
    content: Place<'_>,
) -> Result<CodeBytes, ClassFault>
    ensures { Gives told (λ c. c) result (reading.code_at pool.now attribute content.entry.bytes.now content.entry.at) }
{
    let source = Source::Content(attribute);
    let (max_stack, place) = source.u16(content)?;
    let (max_locals, place) = source.u16(place)?;
    let (code, place) = long_text_at(alloc, attribute, place)?;
    let (handlers, place) = handlers_at(alloc, attribute, place)?;
    let (frames, place) = inner_at(alloc, pool, attribute, place)?;
    if !place.is_end() {
        return Err(ClassFault::Attribute(attribute));
    }
    Ok(CodeBytes {
        max_stack,
        max_locals,
        code,
        handlers,
        frames,
    })
}

/// The bytes whose length stands at a place.
#[tactic(auto, unfolding(crate::specs::Reading::long_text_at))]
fn long_text_at<'p>(
    alloc: Global,
    attribute: usize,
    place: Place<'p>,
) -> Result<(Items<u8>, Place<'p>), ClassFault>
    ensures { Reads told (λ x. x) place.entry result (reading.long_text_at attribute) }
{
    let (text, next) = Source::Content(attribute).content(place)?;
    Ok((copied(alloc, text.rest())?, next))
}

fn copied(alloc: Global, bytes: &[u8]) -> Result<Items<u8>, ClassFault>
    ensures { Gives told (λ it. it) result (Ok bytes.now) }
{
    Ok(Items::from_vec(Vec::from_slice(alloc, bytes)?))
}

/// The handlers whose count stands at a place.
#[tactic(auto, unfolding(crate::specs::Reading::handlers_at))]
fn handlers_at<'p>(
    alloc: Global,
    attribute: usize,
    place: Place<'p>,
) -> Result<(Items<Handler>, Place<'p>), ClassFault>
    ensures { Reads told (λ x. x) place.entry result (reading.handlers_at attribute) }
{
    let (count, place) = Source::Content(attribute).u16(place)?;
    each_handler(alloc, attribute, count, place)
}

fn each_handler<'p>(
    alloc: Global,
    attribute: usize,
    count: u16,
    place: Place<'p>,
) -> Result<(Items<Handler>, Place<'p>), ClassFault>
    ensures { Reads told (λ x. x) place.entry result (λ bytes. each_at (λ done. reading.handler_at attribute bytes) [] count) }
{
    let mut done = Vec::new(alloc);
    let mut next = place;
    for _ in 0..count {
        let (handler, after) = handler_at(attribute, next)?;
        done.push(handler)?;
        next = after;
    }
    Ok((Items::from_vec(done), next))
}

/// The handler at a place.
#[tactic(auto, unfolding(crate::specs::Reading::handler_at))]
fn handler_at<'p>(attribute: usize, place: Place<'p>) -> Result<(Handler, Place<'p>), ClassFault>
    ensures { Reads told (λ x. x) place.entry result (reading.handler_at attribute) }
{
    let source = Source::Content(attribute);
    let (start, place) = source.u16(place)?;
    let (end, place) = source.u16(place)?;
    let (target, place) = source.u16(place)?;
    let (catch_type, place) = source.u16(place)?;
    let handler = Handler {
        start,
        end,
        target,
        catch_type,
    };
    Ok((handler, place))
}

/// The frames among the attributes whose count stands at a place.
fn inner_at<'p>(
    alloc: Global,
    pool: &Pool,
    attribute: usize,
    place: Place<'p>,
) -> Result<(Option<Items<u8>>, Place<'p>), ClassFault>
    ensures { Reads told (λ x. x) place.entry result (reading.inner_at pool.now attribute) }
{
    one_at(alloc, Frames, Source::Content(attribute), pool, place)
}

/// The attributes of code.
#[derive(Drop)]
struct Frames;

impl SiteReader<Items<u8>> for Frames {
    ghost use Rattle.std.specs.Prelude.{true};
    ghost use Rattle.jl_optable.specs.declared.attributes.AttrForm.TheVariants as forms;
    ghost use Rattle.jl_classfile.specs.Attributes.{alone, may_begin};
    ghost use Rattle.jl_class.specs.Faults.{cut_in};
    ghost use Rattle.jl_class.specs.Meaning.{names_frames};
    ghost use Rattle.jl_class.specs.Reading.{frames_at};

    ghost form_of = { λ site. alone names_frames forms.Frames };

    ghost may_stand = { λ site. may_begin true };

    ghost cut_at = { λ site. cut_in };

    ghost means = { λ site form. frames_at };

    fn form(&self, name: &Name) -> Option<AttrForm> {
        named(name, AttrForm::Frames)
    }

    fn may(&self, done: &[Items<u8>], _form: AttrForm) -> bool {
        done.is_empty()
    }

    fn cut(&self, attribute: usize, _at: usize) -> ClassFault {
        ClassFault::Attribute(attribute)
    }

    fn meaning(
        &self,
        alloc: Global,
        _form: AttrForm,
        _attribute: usize,
        content: Place<'_>,
    ) -> Result<Items<u8>, ClassFault> {
        copied(alloc, content.rest())
    }
}
