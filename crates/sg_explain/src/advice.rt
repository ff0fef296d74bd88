// One sentence for each code, of what helps.
ghost use Rattle.std.specs.Prelude.{◌≡◌, ◌++◌, OnOk};
ghost use Rattle.sg_explain.specs.Advice.{advice, sentence as sentence_of};

use sg_kinds::fault::SpecFault;
use sg_kinds::memory::NoMemory;

fn sentence(fault: &SpecFault) -> &'static str
    ensures { result.now ≡ sentence_of fault.now }
{
    match fault {
        SpecFault::TooLong => {
            "the text is over 1,048,576 bytes: take out what is generated and not needed."
        }
        SpecFault::Byte(_) => {
            "no token begins or goes on so here; a string or comment that was closed too early may stand above."
        }
        SpecFault::Unclosed(_) => {
            "close what begins here: a string or literal on its line, a comment with `*/`."
        }
        SpecFault::LongNumber(_) => "a number is at most 9223372036854775807.",
        SpecFault::LongName(_) => "a name has at most 64 bytes: shorten it.",
        SpecFault::Syntax(_) => {
            "no form of declaration fits what begins here: look for a missing `;` or bracket, or a reserved word as a name."
        }
        SpecFault::Limit(..) => {
            "there is too much of it: put some together in a phylum or a value of their own."
        }
        SpecFault::Duplicate(..) => "this name is defined already: rename one of the two.",
        SpecFault::UnknownName(..) => {
            "nothing of this name is known here: declare it, or name what is declared, and number what occurs more than once."
        }
        SpecFault::ResultCount(..) => {
            "a nonterminal has exactly one synthesized attribute, its result, and no inherited one."
        }
        SpecFault::RootCount(_) => "write `root`, the phylum of whole documents and `;`, once.",
        SpecFault::ListShape(..) => {
            "a list has two operators in this order: one without arguments, then one over an element and the list."
        }
        SpecFault::OptionalShape(..) => {
            "put an operator without arguments first, and another one behind it."
        }
        SpecFault::NoCompletion(..) => {
            "let the first operator of each phylum need nothing of the same phylum; make a list optional, or its element finite."
        }
        SpecFault::RootInherits(..) => {
            "nothing above the root defines an inherited attribute: put a phylum over it whose operator does."
        }
        SpecFault::TwiceBound(..) => {
            "a variable of this name is visible here already: rename one of the two."
        }
        SpecFault::Arity(..) => {
            "write as many parts as are declared; in a pattern `*` stands for a part that does not matter."
        }
        SpecFault::Mismatch(_) => {
            "another type is wanted here; all branches and cases go by the first of them."
        }
        SpecFault::ShownType(_) => {
            "only texts, numbers, truth values and lexemes are shown: make a text of it in a local."
        }
        SpecFault::NotDefinedHere(_) => {
            "an operator defines synthesized attributes of its left side, inherited ones of its arguments, and its locals."
        }
        SpecFault::Twice(_) => "another equation of this operator defines the same: take one out.",
        SpecFault::Missing(..) => {
            "an operator defines each synthesized attribute of its left side, each inherited one of its arguments, and its locals."
        }
        SpecFault::NoEnclosing(_) => "not everything that may stand above here has what is named.",
        SpecFault::NoScheme(..) => "an operator that may stand in a document needs a scheme.",
        SpecFault::SchemeKids(..) => {
            "a scheme has one `@`, `^` or `..` for each argument in their order; a separator stands once, in a list's second operator."
        }
        SpecFault::SchemeText(_) => {
            "behind `%` stands `n`, `t`, `b` or `%`: write `%%` for a percent sign."
        }
        SpecFault::PatternForm(..) => {
            "this text is no pattern: put a backslash, written twice, before a sign that is meant itself."
        }
        SpecFault::EmptyLexeme(..) => {
            "this pattern matches the empty text: write `+` for `*`, or take out a `?`."
        }
        SpecFault::EntryTwice(..) => "a phylum has one entry: make one nonterminal of the two.",
        SpecFault::EntryType(..) => "let the nonterminal make a term of this phylum.",
        SpecFault::Unproductive(..) => {
            "each production of this nonterminal needs one that never ends: add a production that ends."
        }
        SpecFault::States => {
            "the input grammar has over 65,536 states: let a token in front say what follows."
        }
        SpecFault::Conflict(..) => {
            "read the prefix as what was typed, the token as what comes, and each dot as how far its production has come."
        }
        SpecFault::Direct(..) => {
            "each vertex is needed by the next, and the last by the first: some equation must do without."
        }
        SpecFault::Induced(..) => {
            "the cycle leads through other operators: some equation on its way must do without."
        }
        SpecFault::Ordered(..) => {
            "no one order of the attributes of a phylum serves all its uses: let the later of two depend on the earlier one."
        }
        SpecFault::NoMemory => "",
    }
}

/// Writes the sentence of a fault as a line that begins with `help:`.
pub fn write_advice(out: &mut Vec<u8>, fault: &SpecFault) -> Result<(), NoMemory>
    ensures { OnOk result (out.new.items ≡ out.old.items ++ advice fault.now) }
{
    out.extend_from_slice(b"help: ")?;
    out.extend_from_slice(sentence(fault).as_bytes())?;
    out.push(b'\n')?;
    Ok(())
}
