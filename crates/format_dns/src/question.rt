//! Questions (RFC 1035, section 4.1.2).
ghost use Rattle.format_dns.specs.Fields.{AreQuestionFields};
ghost use Rattle.format_dns.specs.Questions.{AreQuestions, FieldsResult, HasNoQuestion, IsQuestion};
ghost use Rattle.format_dns.specs.Questions.{PartResult, QuestionsLack, QuestionsResult};
ghost use Rattle.format_dns.specs.Questions.{QuestionsWant};
ghost use Rattle.format_dns.specs.Questions.{SectionResult};
ghost use Rattle.std.specs.Prelude.{◌≤◌, length, IfOk, IsOk};

use crate::fault::{MessageError, PartError, Section};
use crate::header::number;
use crate::name::{Name, read_name};
use std::alloc::Allocator;
use stream_errors::empty::EmptyError;
use stream_errors::mode::ErrMode;

/// A question of a message `'m`.
#[derive(Drop)]
pub struct Question<'m, A: Allocator> {
    /// The name in question.
    pub name: Name<'m, A>,
    /// The number of the type of the requested records; 255 means all.
    pub kind: u16,
    /// The number of their class; 1 is the Internet, 255 is any.
    pub class: u16,
    /// The place in the message, in bytes, after the question.
    pub behind: usize,
}

/// The fields of a question after its name.
#[derive(Clone, Copy)]
struct Asked {
    kind: u16,
    class: u16,
}

/// The type and the class with which bytes begin.
fn read_asked<'m>(input: &mut &'m [u8]) -> Result<Asked, ErrMode<EmptyError>>
    ensures fields { IfOk result (λ asked. AreQuestionFields asked.kind asked.class input.old.now
        input.new.now) }
    ensures accepts { 4 ≤ length input.old.now → IsOk result }
{
    let kind = number(input)?;
    let class = number(input)?;
    Ok(Asked { kind, class })
}

/// Reads the type and the class at offset `place`.
fn asked_at(message: &[u8], place: usize) -> Result<Asked, PartError>
    ensures { FieldsResult message.now 4 (λ asked. AreQuestionFields asked.kind asked.class)
        place result }
{
    let Some(mut rest) = message.get(place..) else {
        return Err(PartError::Ends(place));
    };
    match read_asked(&mut rest) {
        Ok(asked) => Ok(asked),
        Err(_) => Err(PartError::Ends(place)),
    }
}

/// Reads the question at offset `place` of a message, in bytes from its start. At most `pointers`
/// pointers are followed in sequence, as by [`read_name`].
///
/// An error holds the reason why there is no question and the first offset where it fails: in its
/// name, or where the message ends within the type and the class. Or it is out of memory.
///
/// ```
/// use format_dns::question::read_question;
///
/// let message = b"\x03com\x00\x00\x01\x00\x01".as_slice();
/// let question = read_question(alloc, 0, message, 0);
/// assert!(rt; matches!(question, Ok(question) if question.kind == 1 && question.behind == 9));
/// assert!(rt; read_question(alloc, 0, message, 5).is_err());
/// ```
pub fn read_question<'m, A: Allocator + Copy>(
    alloc: A,
    pointers: usize,
    message: &'m [u8],
    place: usize,
) -> Result<Question<'m, A>, PartError>
    ensures { PartResult (IsQuestion message.now pointers place)
        (HasNoQuestion message.now pointers place)
        result }
{
    let name = read_name(alloc, pointers, message, place)?;
    let asked = asked_at(message, name.behind)?;
    let behind = name.behind + 4;
    Ok(Question {
        name,
        kind: asked.kind,
        class: asked.class,
        behind,
    })
}

/// Consecutive questions of a message `'m`.
#[derive(Drop)]
pub struct Questions<'m, A: Allocator> {
    /// The questions, in the order of the message.
    pub list: Vec<Question<'m, A>, A>,
    /// The place in the message, in bytes, after the last.
    pub behind: usize,
}

/// Reads `count` questions from offset `place` of a message on, in bytes from its start, each as by
/// [`read_question`]. In a complete message they start at offset 12, after the header, which holds
/// their number.
///
/// An error holds the reason why the first invalid question is invalid and its offset, or is out of
/// memory. Memory is allocated as questions are read, regardless of `count`.
///
/// ```
/// use format_dns::question::read_questions;
///
/// let message = b"\x03com\x00\x00\x01\x00\x01\xc0\x00\x00\x02\x00\x01".as_slice();
/// let questions = read_questions(alloc, 1, message, 0, 2);
/// assert!(rt; matches!(questions, Ok(read) if read.list[1].kind == 2 && read.behind == 15));
/// assert!(rt; read_questions(alloc, 1, message, 0, 3).is_err());
/// ```
pub fn read_questions<'m, A: Allocator + Copy>(
    alloc: A,
    pointers: usize,
    message: &'m [u8],
    place: usize,
    count: u16,
) -> Result<Questions<'m, A>, PartError>
    ensures { QuestionsResult message.now pointers place count result }
{
    match questions_in(alloc, pointers, message, place, count) {
        Ok(questions) => Ok(questions),
        Err(fault) => Err(fault.why),
    }
}

/// Like [`read_questions`], for a question section. The error also holds the number of questions
/// before the one that is invalid or could not be allocated.
pub(crate) fn questions_in<'m, A: Allocator + Copy>(
    alloc: A,
    pointers: usize,
    message: &'m [u8],
    place: usize,
    count: u16,
) -> Result<Questions<'m, A>, MessageError>
    ensures { SectionResult Section.Question (AreQuestions message.now pointers place count)
        (QuestionsWant message.now pointers A place count)
        (QuestionsLack message.now pointers A place count) result }
{
    let section = Section::Question;
    let mut list = Vec::new(alloc);
    let mut behind = place;
    while list.len() < usize::from(count) {
        let entry = list.len();
        let question = match read_question(alloc, pointers, message, behind) {
            Ok(question) => question,
            Err(why) => return Err(MessageError {
                section,
                entry,
                why,
            }),
        };
        behind = question.behind;
        if list.push(question).is_err() {
            let why = PartError::NoMemory;
            return Err(MessageError {
                section,
                entry,
                why,
            });
        }
    }
    Ok(Questions { list, behind })
}
