//! The commands `otp-calc` and `otp-hex`: a dictionary is read, and then a password is told in words or in digits.
ghost use Rattle.std.specs.Prelude.{◌≡◌};
ghost use Rattle.otp_words.specs.Hearing.{HearsTask};
ghost use Rattle.otp_words.specs.Listed.{listed};
ghost use Rattle.bastion.specs.Calculating.{AnswersTask, AnswersWords, Calculates, ReadsDictionary, Spells, calculated_text, dictionary_fault, groups_text};

use crate::jobs::print_alone;
use crate::{Device, FileName, Kit, OtpRefusal, Outcome, Refusal, Spelling, Step, World};
use arrayvec::ArrayVec;
use fw_outside::Files;
use fw_types::{append, append_byte};
use otp_words::{DictFault, Dictionary, SixWords, TaskFault, append_groups, hear_password};
use std::alloc::Global;

fn dictionary_fault(fault: DictFault) -> Outcome
    ensures { result ≡ dictionary_fault fault }
{
    match fault {
        DictFault::ReadFault => Outcome::Failed(Device::Dictionary),
        DictFault::NoMemory => Outcome::NoMemory(Step::Dictionary),
        _ => Outcome::Unread(Refusal::Otp(OtpRefusal::Dictionary(fault))),
    }
}

// The dictionary in the file of this name.
fn read_dictionary<F: Files>(
    alloc: Global,
    files: &mut F,
    name: &[u8],
) -> Result<Dictionary, Outcome>
    ensures { ReadsDictionary name.now result (F.files_view files.old) (F.files_view files.new) }
{
    let Some(mut source) = files.source(name) else {
        return Err(Outcome::Failed(Device::Dictionary));
    };
    let read = Dictionary::read(alloc, &mut source);
    files.back(source);
    match read {
        Ok(dictionary) => Ok(dictionary),
        Err(fault) => Err(dictionary_fault(fault)),
    }
}

// The same, of which only the files are asked.
fn find_dictionary<T: Kit>(
    alloc: Global,
    name: &[u8],
    world: &mut World<T>,
) -> Result<Dictionary, Outcome>
    ensures found { ReadsDictionary name.now result world.old.files world.new.files }
    ensures output { world.new.output ≡ world.old.output }
    ensures logs { world.new.logs ≡ world.old.logs }
    ensures inputs { world.new.inputs ≡ world.old.inputs }
{
    read_dictionary(alloc, &mut world.files, name)
}

// The password that the input asks for.
fn hear<T: Kit>(world: &mut World<T>) -> Result<u64, TaskFault>
    ensures hears { HearsTask result world.old.inputs.input world.new.inputs.input }
    ensures inputs { world.new.inputs ≡ record (world.old.inputs) { input = world.new.inputs.input } }
    ensures output { world.new.output ≡ world.old.output }
    ensures logs { world.new.logs ≡ world.old.logs }
    ensures files { world.new.files ≡ world.old.files }
{
    hear_password(&mut world.input)
}

// A password in words, and then in digits.
fn calculated(dictionary: &Dictionary, password: u64) -> ArrayVec<u8, 64>
    ensures { result.items ≡ calculated_text dictionary.now password }
{
    let mut words: ArrayVec<u8, 32> = ArrayVec::new();
    dictionary.words_of(password, &mut words);
    let mut out = ArrayVec::new();
    append(&mut out, words.as_slice());
    append_byte(&mut out, b'\n');
    append_groups(&mut out, password);
    append_byte(&mut out, b'\n');
    out
}

// A password in digits.
fn digits(password: u64) -> ArrayVec<u8, 64>
    ensures { result.items ≡ groups_text password }
{
    let mut out = ArrayVec::new();
    append_groups(&mut out, password);
    append_byte(&mut out, b'\n');
    out
}

// Hears what the input asks for, and prints it.
fn answer<T: Kit>(dictionary: &Dictionary, world: &mut World<T>) -> Outcome
    ensures { AnswersTask dictionary.now result world.old world.new }
{
    match hear(world) {
        Ok(password) => print_alone(calculated(dictionary, password).as_slice(), world),
        Err(TaskFault::Challenge) => Outcome::Unread(Refusal::Otp(OtpRefusal::Challenge)),
        Err(TaskFault::Failed) => Outcome::Failed(Device::Input),
    }
}

// Prints the password that six words are.
fn answer_words<T: Kit>(dictionary: &Dictionary, words: &SixWords, world: &mut World<T>) -> Outcome
    ensures { AnswersWords dictionary.now (listed words.now) result world.old world.new }
{
    match dictionary.read_six(words) {
        Ok(password) => print_alone(digits(password).as_slice(), world),
        Err(fault) => Outcome::Unread(Refusal::Otp(OtpRefusal::Words(fault))),
    }
}

/// Tells the password that the input asks for.
pub(crate) fn calculate<T: Kit>(alloc: Global, file: &FileName, world: &mut World<T>) -> Outcome
    ensures { Calculates file.now result world.old world.new }
{
    match find_dictionary(alloc, file.bytes, world) {
        Ok(dictionary) => answer(&dictionary, world),
        Err(outcome) => outcome,
    }
}

/// Tells the password that six words are.
pub(crate) fn spell<T: Kit>(alloc: Global, spelling: &Spelling, world: &mut World<T>) -> Outcome
    ensures { Spells spelling.now result world.old world.new }
{
    match find_dictionary(alloc, spelling.file, world) {
        Ok(dictionary) => answer_words(&dictionary, &spelling.words, world),
        Err(outcome) => outcome,
    }
}
