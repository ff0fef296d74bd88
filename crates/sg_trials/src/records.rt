//! What the record of a language holds.
use crate::language::language;
use crate::loading::loaded;
use sg_kinds::marks::Way;
use sg_kinds::spec::{Spec, Symbol};
use sg_kinds::text::Text;
use std::fmt::Write;
use std::process::Abort;
use std::str;

/// A line for each phylum with its operators and attributes, each operator with its arguments and locals, each equation
/// with its operator, its target and its arguments, each production, each transformation, and each entry.
const RECORD: &str = "\
BOOL value:0s
INT value:1s
STR value:2s
r 0 v:1s
p 1 i:1i a:1s j:1i b:1s
xs 2 3
ID value:6s
WHITESPACE value:7s
R 3 4 5 6 w:1
P 4 l:1
Nil 5
Pair 5 1 5
0 0.1 1.3
0 0.0 0.1 1.3
0 1.0
0 1.2 1.1
1 0.1 0.0
1 0.4 0.1 0.2
1 0.3 0.4
0 6 '+' ~0
0
1 '(' ~1 ')'
1 6
none 5
same 4
5 ~0
1 ~1
";

/// A name of a specification.
fn name(text: &Text) -> &str {
    str::from_utf8(text.as_slice()).unwrap_or("?")
}

fn tell_phyla(rt: &impl Abort, spec: &Spec, out: &mut String) {
    for phylum in spec.phyla.as_slice() {
        write!(out, "{}", name(&phylum.name)).expect(rt, "memory");
        for op in phylum.ops.as_slice() {
            write!(out, " {}", op.number).expect(rt, "memory");
        }
        for attr in phylum.attrs.as_slice() {
            let way = if attr.way == Way::Inherited { "i" } else { "s" };
            write!(out, " {}:{}{way}", name(&attr.name), attr.of.number).expect(rt, "memory");
        }
        writeln!(out).expect(rt, "memory");
    }
}

fn tell_operators(rt: &impl Abort, spec: &Spec, out: &mut String) {
    for op in spec.ops.as_slice() {
        write!(out, "{} {}", name(&op.name), op.phylum.number).expect(rt, "memory");
        for arg in op.args.as_slice() {
            write!(out, " {}", arg.number).expect(rt, "memory");
        }
        for local in op.locals.as_slice() {
            write!(out, " {}:{}", name(&local.name), local.of.number).expect(rt, "memory");
        }
        writeln!(out).expect(rt, "memory");
    }
}

fn tell_equations(rt: &impl Abort, spec: &Spec, out: &mut String) {
    for rule in spec.rules.as_slice() {
        let target = rule.target;
        write!(out, "{} {}.{}", rule.op.number, target.at, target.slot).expect(rt, "memory");
        for arg in rule.args.as_slice() {
            write!(out, " {}.{}", arg.at, arg.slot).expect(rt, "memory");
        }
        writeln!(out).expect(rt, "memory");
    }
}

fn tell_grammar(rt: &impl Abort, spec: &Spec, out: &mut String) {
    for production in spec.productions.as_slice() {
        write!(out, "{}", production.left).expect(rt, "memory");
        for symbol in production.right.as_slice() {
            match symbol {
                Symbol::Quoted(text) => write!(out, " '{}'", name(text)),
                Symbol::Lexical(phylum) => write!(out, " {}", phylum.number),
                Symbol::Nonterminal(number) => write!(out, " ~{number}"),
            }
            .expect(rt, "memory");
        }
        writeln!(out).expect(rt, "memory");
    }
    for transform in spec.transforms.as_slice() {
        writeln!(out, "{} {}", name(&transform.name), transform.phylum.number).expect(rt, "memory");
    }
    for entry in spec.entries.as_slice() {
        writeln!(out, "{} ~{}", entry.phylum.number, entry.nonterminal).expect(rt, "memory");
    }
}

/// Tells the record in turn.
fn assert_record(rt: &(impl Abort + AllocGlobal), spec: &Spec) {
    let mut out = String::new(rt.alloc());
    tell_phyla(rt, spec, &mut out);
    tell_operators(rt, spec, &mut out);
    tell_equations(rt, spec, &mut out);
    tell_grammar(rt, spec, &mut out);
    assert_eq!(rt; out.as_str(), RECORD);
    assert_eq!(rt; spec.root.number, 3);
    assert_eq!(rt; spec.lexemes.len(), 2);
}

#[test]
fn the_record_of_a_language(rt: HostRuntime) {
    let loaded = loaded(&rt, language());
    assert_record(&rt, &loaded.spec);
}
