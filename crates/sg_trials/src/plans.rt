//! Plans of evaluation: the visit of each attribute, and what each visit of an operator does.
use crate::language::language;
use crate::loading::loaded;
use sg_kinds::plans::{PlanStep, Plans};
use std::fmt::Write;
use std::process::Abort;

/// The visits of the attributes of each phylum, a line a phylum.
const VISITS: &str = "\
0: 1
1: 1
2: 1
3: 1
4: 1 1 2 2
5:
6: 1
7: 1
";

/// The steps of each operator, a line an operator: `e` and an equation, or a child with its visit; a bar ends a visit.
const STEPS: &str = "\
0: e2 0.1 e3 0.2 e0 e1 1.1 |
1: e4 | e5 e6 |
2: |
3: 1.1 |
";

fn tell_visits(rt: &impl Abort, plans: &Plans, out: &mut String) {
    for (phylum, visits) in plans.visits.as_slice().iter().enumerate() {
        write!(out, "{phylum}:").expect(rt, "memory");
        for visit in visits.as_slice() {
            write!(out, " {visit}").expect(rt, "memory");
        }
        writeln!(out).expect(rt, "memory");
    }
}

fn tell_steps(rt: &impl Abort, plans: &Plans, out: &mut String) {
    for (op, visits) in plans.steps.as_slice().iter().enumerate() {
        write!(out, "{op}:").expect(rt, "memory");
        for steps in visits.as_slice() {
            for step in steps.as_slice() {
                match step {
                    PlanStep::Eval(rule) => write!(out, " e{}", rule.number),
                    PlanStep::Visit(child, visit) => write!(out, " {child}.{visit}"),
                }
                .expect(rt, "memory");
            }
            write!(out, " |").expect(rt, "memory");
        }
        writeln!(out).expect(rt, "memory");
    }
}

/// Tells the plans in turn.
fn assert_plans(rt: &(impl Abort + AllocGlobal), plans: &Plans) {
    let mut out = String::new(rt.alloc());
    tell_visits(rt, plans, &mut out);
    assert_eq!(rt; out.as_str(), VISITS);
    out.clear();
    tell_steps(rt, plans, &mut out);
    assert_eq!(rt; out.as_str(), STEPS);
}

#[test]
fn plans_of_a_language_of_two_visits(rt: HostRuntime) {
    let loaded = loaded(&rt, language());
    let plans = loaded.plans.copy(rt.alloc()).expect(&rt, "a copy");
    assert_plans(&rt, &plans);
}
