// The words that a name can spell.

ghost use Rattle.std.specs.Prelude.{◌≡◌};
ghost use Rattle.pli_language.specs.Keywords.{in_upper_case, same_bytes, word_named};
ghost use Rattle.pli_lex.specs.Words.{block_or_later, group_or_later, statement_or_later, stream_or_later, condition_or_later, declaration_or_later, attribute_or_later, built_in_or_later, absent_statement_or_later, absent_attribute_or_later};

use pli_language::token::Word;

/// The keyword that a name spells, in letters of either case, or `Other`.
#[tactic(auto, unfolding(crate::specs::Words::block_or_later, crate::specs::Words::group_or_later, crate::specs::Words::statement_or_later, crate::specs::Words::stream_or_later, crate::specs::Words::condition_or_later, crate::specs::Words::declaration_or_later, crate::specs::Words::attribute_or_later, crate::specs::Words::built_in_or_later, crate::specs::Words::absent_statement_or_later, crate::specs::Words::absent_attribute_or_later))]
pub fn word_of(name: &[u8]) -> Word
    ensures { result ≡ word_named (in_upper_case name.now) }
{
    block_word(name)
}

// The name is this word, in letters of either case; the word's own are upper case.
fn spells(name: &[u8], word: &[u8]) -> bool
    ensures { result ≡ same_bytes (in_upper_case name.now) word.now }
{
    if name.len() != word.len() {
        return false;
    }
    for (i, byte) in name.iter().enumerate() {
        if byte.to_ascii_uppercase() != word[i] {
            return false;
        }
    }
    true
}

#[tactic(auto, unfolding(crate::specs::Words::block_or_later))]
fn block_word(name: &[u8]) -> Word
    ensures { result ≡ block_or_later (in_upper_case name.now) }
{
    if spells(name, b"PROCEDURE") {
        Word::Procedure
    } else if spells(name, b"PROC") {
        Word::Procedure
    } else if spells(name, b"OPTIONS") {
        Word::Options
    } else if spells(name, b"MAIN") {
        Word::Main
    } else if spells(name, b"RECURSIVE") {
        Word::Recursive
    } else if spells(name, b"RETURNS") {
        Word::Returns
    } else if spells(name, b"END") {
        Word::End
    } else if spells(name, b"IF") {
        Word::If
    } else if spells(name, b"THEN") {
        Word::Then
    } else if spells(name, b"ELSE") {
        Word::Else
    } else {
        group_word(name)
    }
}

#[tactic(auto, unfolding(crate::specs::Words::group_or_later))]
fn group_word(name: &[u8]) -> Word
    ensures { result ≡ group_or_later (in_upper_case name.now) }
{
    if spells(name, b"ON") {
        Word::On
    } else if spells(name, b"SYSTEM") {
        Word::System
    } else if spells(name, b"DO") {
        Word::Do
    } else if spells(name, b"WHILE") {
        Word::While
    } else if spells(name, b"TO") {
        Word::To
    } else if spells(name, b"BY") {
        Word::By
    } else if spells(name, b"BEGIN") {
        Word::Begin
    } else if spells(name, b"CALL") {
        Word::Call
    } else if spells(name, b"RETURN") {
        Word::Return
    } else {
        statement_word(name)
    }
}

#[tactic(auto, unfolding(crate::specs::Words::statement_or_later))]
fn statement_word(name: &[u8]) -> Word
    ensures { result ≡ statement_or_later (in_upper_case name.now) }
{
    if spells(name, b"GOTO") {
        Word::Goto
    } else if spells(name, b"GO") {
        Word::Go
    } else if spells(name, b"STOP") {
        Word::Stop
    } else if spells(name, b"SIGNAL") {
        Word::Signal
    } else if spells(name, b"REVERT") {
        Word::Revert
    } else if spells(name, b"ALLOCATE") {
        Word::Allocate
    } else if spells(name, b"ALLOC") {
        Word::Allocate
    } else if spells(name, b"FREE") {
        Word::Free
    } else if spells(name, b"IN") {
        Word::In
    } else if spells(name, b"SET") {
        Word::Set
    } else if spells(name, b"GET") {
        Word::Get
    } else {
        stream_word(name)
    }
}

#[tactic(auto, unfolding(crate::specs::Words::stream_or_later))]
fn stream_word(name: &[u8]) -> Word
    ensures { result ≡ stream_or_later (in_upper_case name.now) }
{
    if spells(name, b"PUT") {
        Word::Put
    } else if spells(name, b"FILE") {
        Word::File
    } else if spells(name, b"EDIT") {
        Word::Edit
    } else if spells(name, b"SYSIN") {
        Word::Sysin
    } else if spells(name, b"SYSPRINT") {
        Word::Sysprint
    } else if spells(name, b"SKIP") {
        Word::Skip
    } else if spells(name, b"F") {
        Word::F
    } else if spells(name, b"A") {
        Word::A
    } else if spells(name, b"X") {
        Word::X
    } else if spells(name, b"COLUMN") {
        Word::Column
    } else if spells(name, b"COL") {
        Word::Column
    } else {
        condition_word(name)
    }
}

#[tactic(auto, unfolding(crate::specs::Words::condition_or_later))]
fn condition_word(name: &[u8]) -> Word
    ensures { result ≡ condition_or_later (in_upper_case name.now) }
{
    if spells(name, b"AREA") {
        Word::Area
    } else if spells(name, b"FIXEDOVERFLOW") {
        Word::FixedOverflow
    } else if spells(name, b"FOFL") {
        Word::FixedOverflow
    } else if spells(name, b"ZERODIVIDE") {
        Word::ZeroDivide
    } else if spells(name, b"ZDIV") {
        Word::ZeroDivide
    } else if spells(name, b"ENDFILE") {
        Word::Endfile
    } else if spells(name, b"ERROR") {
        Word::Error
    } else {
        declaration_word(name)
    }
}

#[tactic(auto, unfolding(crate::specs::Words::declaration_or_later))]
fn declaration_word(name: &[u8]) -> Word
    ensures { result ≡ declaration_or_later (in_upper_case name.now) }
{
    if spells(name, b"REFER") {
        Word::Refer
    } else if spells(name, b"DECLARE") {
        Word::Declare
    } else if spells(name, b"DCL") {
        Word::Declare
    } else if spells(name, b"FIXED") {
        Word::Fixed
    } else if spells(name, b"BINARY") {
        Word::Binary
    } else if spells(name, b"BIN") {
        Word::Binary
    } else if spells(name, b"CHARACTER") {
        Word::Character
    } else if spells(name, b"CHAR") {
        Word::Character
    } else if spells(name, b"VARYING") {
        Word::Varying
    } else if spells(name, b"VAR") {
        Word::Varying
    } else if spells(name, b"BIT") {
        Word::Bit
    } else {
        attribute_word(name)
    }
}

#[tactic(auto, unfolding(crate::specs::Words::attribute_or_later))]
fn attribute_word(name: &[u8]) -> Word
    ensures { result ≡ attribute_or_later (in_upper_case name.now) }
{
    if spells(name, b"POINTER") {
        Word::Pointer
    } else if spells(name, b"PTR") {
        Word::Ptr
    } else if spells(name, b"OFFSET") {
        Word::Offset
    } else if spells(name, b"AUTOMATIC") {
        Word::Automatic
    } else if spells(name, b"AUTO") {
        Word::Automatic
    } else if spells(name, b"STATIC") {
        Word::Static
    } else if spells(name, b"CONTROLLED") {
        Word::Controlled
    } else if spells(name, b"CTL") {
        Word::Controlled
    } else if spells(name, b"BASED") {
        Word::Based
    } else if spells(name, b"INITIAL") {
        Word::Initial
    } else if spells(name, b"INIT") {
        Word::Initial
    } else if spells(name, b"BUILTIN") {
        Word::Builtin
    } else if spells(name, b"ALIGNED") {
        Word::Aligned
    } else if spells(name, b"UNALIGNED") {
        Word::Unaligned
    } else if spells(name, b"INTERNAL") {
        Word::Internal
    } else if spells(name, b"NULL") {
        Word::Null
    } else if spells(name, b"EMPTY") {
        Word::Empty
    } else {
        built_in_word(name)
    }
}

#[tactic(auto, unfolding(crate::specs::Words::built_in_or_later))]
fn built_in_word(name: &[u8]) -> Word
    ensures { result ≡ built_in_or_later (in_upper_case name.now) }
{
    if spells(name, b"ABS") {
        Word::Abs
    } else if spells(name, b"SIGN") {
        Word::Sign
    } else if spells(name, b"MAX") {
        Word::Max
    } else if spells(name, b"MIN") {
        Word::Min
    } else if spells(name, b"MOD") {
        Word::Mod
    } else if spells(name, b"DIVIDE") {
        Word::Divide
    } else if spells(name, b"LENGTH") {
        Word::Length
    } else if spells(name, b"SUBSTR") {
        Word::Substr
    } else if spells(name, b"INDEX") {
        Word::Index
    } else if spells(name, b"VERIFY") {
        Word::Verify
    } else if spells(name, b"LBOUND") {
        Word::Lbound
    } else if spells(name, b"HBOUND") {
        Word::Hbound
    } else if spells(name, b"DIM") {
        Word::Dim
    } else if spells(name, b"ALLOCATION") {
        Word::Allocation
    } else if spells(name, b"ADDR") {
        Word::Addr
    } else if spells(name, b"ONCODE") {
        Word::Oncode
    } else {
        absent_statement_word(name)
    }
}

#[tactic(auto, unfolding(crate::specs::Words::absent_statement_or_later))]
fn absent_statement_word(name: &[u8]) -> Word
    ensures { result ≡ absent_statement_or_later (in_upper_case name.now) }
{
    if spells(name, b"OPEN") {
        Word::Open
    } else if spells(name, b"CLOSE") {
        Word::Close
    } else if spells(name, b"READ") {
        Word::Read
    } else if spells(name, b"WRITE") {
        Word::Write
    } else if spells(name, b"REWRITE") {
        Word::Rewrite
    } else if spells(name, b"DELETE") {
        Word::Delete
    } else if spells(name, b"LOCATE") {
        Word::Locate
    } else if spells(name, b"SELECT") {
        Word::Select
    } else if spells(name, b"LEAVE") {
        Word::Leave
    } else if spells(name, b"EXIT") {
        Word::Exit
    } else if spells(name, b"FORMAT") {
        Word::Format
    } else if spells(name, b"DEFAULT") {
        Word::Default
    } else if spells(name, b"ENTRY") {
        Word::Entry
    } else if spells(name, b"LIST") {
        Word::List
    } else if spells(name, b"DATA") {
        Word::Data
    } else {
        absent_attribute_word(name)
    }
}

#[tactic(auto, unfolding(crate::specs::Words::absent_attribute_or_later))]
fn absent_attribute_word(name: &[u8]) -> Word
    ensures { result ≡ absent_attribute_or_later (in_upper_case name.now) }
{
    if spells(name, b"DECIMAL") {
        Word::Decimal
    } else if spells(name, b"DEC") {
        Word::Decimal
    } else if spells(name, b"FLOAT") {
        Word::Float
    } else if spells(name, b"PICTURE") {
        Word::Picture
    } else if spells(name, b"PIC") {
        Word::Picture
    } else if spells(name, b"COMPLEX") {
        Word::Complex
    } else if spells(name, b"LABEL") {
        Word::Label
    } else if spells(name, b"EXTERNAL") {
        Word::External
    } else if spells(name, b"EXT") {
        Word::External
    } else if spells(name, b"LIKE") {
        Word::Like
    } else if spells(name, b"DEFINED") {
        Word::Defined
    } else if spells(name, b"DEF") {
        Word::Defined
    } else if spells(name, b"UNION") {
        Word::Union
    } else if spells(name, b"GENERIC") {
        Word::Generic
    } else {
        Word::Other
    }
}
