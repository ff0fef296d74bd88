// Copies of records.
ghost use Rattle.std.specs.Prelude.{◌≡◌, IfOk};

use crate::lexeme::{Lexeme, LexemeStep};
use crate::memory::NoMemory;
use crate::plans::{PlanStep, Plans};
use crate::row::Row;
use crate::spec::{
    Attr, Function, Item, LevelLine, Local, Operator, Phylum, Piece, Production, Rule, Scheme,
    Spec, Symbol, Transform,
};
use crate::text::Text;
use std::alloc::Global;

/// A value of which an equal one can be made, where memory is found.
pub trait TryCopy: Sized {
    /// An equal value.
    fn try_copy(&self, alloc: Global) -> Result<Self, NoMemory>
        ensures { IfOk result (λ c. c ≡ self.now) };
}

impl TryCopy for u32 {
    fn try_copy(&self, _alloc: Global) -> Result<u32, NoMemory> {
        Ok(*self)
    }
}

impl TryCopy for PlanStep {
    fn try_copy(&self, _alloc: Global) -> Result<PlanStep, NoMemory> {
        Ok(*self)
    }
}

impl TryCopy for Text {
    fn try_copy(&self, alloc: Global) -> Result<Text, NoMemory> {
        self.copy(alloc)
    }
}

impl<T: TryCopy + Drop> TryCopy for Row<T> {
    fn try_copy(&self, alloc: Global) -> Result<Row<T>, NoMemory> {
        let mut copies = Vec::with_capacity(alloc, self.len())?;
        for item in self.as_slice() {
            copies.push(item.try_copy(alloc)?)?;
        }
        Ok(Row::new(copies))
    }
}

impl TryCopy for Attr {
    fn try_copy(&self, alloc: Global) -> Result<Attr, NoMemory> {
        Ok(Attr {
            name: self.name.copy(alloc)?,
            way: self.way,
            of: self.of,
            far: self.far.copy(alloc)?,
        })
    }
}

impl TryCopy for Phylum {
    fn try_copy(&self, alloc: Global) -> Result<Phylum, NoMemory> {
        Ok(Phylum {
            name: self.name.copy(alloc)?,
            shape: self.shape,
            ops: self.ops.copy(alloc)?,
            attrs: self.attrs.try_copy(alloc)?,
        })
    }
}

impl TryCopy for Local {
    fn try_copy(&self, alloc: Global) -> Result<Local, NoMemory> {
        Ok(Local {
            name: self.name.copy(alloc)?,
            of: self.of,
        })
    }
}

impl TryCopy for Piece {
    fn try_copy(&self, alloc: Global) -> Result<Piece, NoMemory> {
        match self {
            Piece::Written(text) => Ok(Piece::Written(text.copy(alloc)?)),
            Piece::Newline => Ok(Piece::Newline),
            Piece::Margin(back, on) => Ok(Piece::Margin(*back, *on)),
        }
    }
}

impl TryCopy for Item {
    fn try_copy(&self, alloc: Global) -> Result<Item, NoMemory> {
        match self {
            Item::Writes(pieces) => Ok(Item::Writes(pieces.try_copy(alloc)?)),
            Item::Child(place) => Ok(Item::Child(*place)),
            Item::Shows(occurrence) => Ok(Item::Shows(*occurrence)),
            Item::Separates(pieces) => Ok(Item::Separates(pieces.try_copy(alloc)?)),
        }
    }
}

impl TryCopy for Scheme {
    fn try_copy(&self, alloc: Global) -> Result<Scheme, NoMemory> {
        Ok(Scheme {
            rests: self.rests,
            editable: self.editable,
            items: self.items.try_copy(alloc)?,
        })
    }
}

impl TryCopy for Operator {
    fn try_copy(&self, alloc: Global) -> Result<Operator, NoMemory> {
        Ok(Operator {
            name: self.name.copy(alloc)?,
            phylum: self.phylum,
            args: self.args.copy(alloc)?,
            locals: self.locals.try_copy(alloc)?,
            schemes: self.schemes.try_copy(alloc)?,
        })
    }
}

impl TryCopy for Rule {
    fn try_copy(&self, alloc: Global) -> Result<Rule, NoMemory> {
        Ok(Rule {
            op: self.op,
            target: self.target,
            args: self.args.copy(alloc)?,
            expr: self.expr,
        })
    }
}

impl TryCopy for Function {
    fn try_copy(&self, alloc: Global) -> Result<Function, NoMemory> {
        Ok(Function {
            name: self.name.copy(alloc)?,
            params: self.params.copy(alloc)?,
            result: self.result,
            body: self.body,
        })
    }
}

impl TryCopy for Transform {
    fn try_copy(&self, alloc: Global) -> Result<Transform, NoMemory> {
        Ok(Transform {
            name: self.name.copy(alloc)?,
            phylum: self.phylum,
            pattern: self.pattern.try_copy(alloc)?,
            expr: self.expr,
        })
    }
}

impl TryCopy for LexemeStep {
    fn try_copy(&self, alloc: Global) -> Result<LexemeStep, NoMemory> {
        match self {
            LexemeStep::Nothing => Ok(LexemeStep::Nothing),
            LexemeStep::Byte(b) => Ok(LexemeStep::Byte(*b)),
            LexemeStep::Dot => Ok(LexemeStep::Dot),
            LexemeStep::Class(negated, ranges) => Ok(LexemeStep::Class(
                *negated,
                ranges.copy(alloc)?,
            )),
            LexemeStep::Then => Ok(LexemeStep::Then),
            LexemeStep::Either => Ok(LexemeStep::Either),
            LexemeStep::Many => Ok(LexemeStep::Many),
            LexemeStep::Several => Ok(LexemeStep::Several),
            LexemeStep::Maybe => Ok(LexemeStep::Maybe),
        }
    }
}

impl TryCopy for Lexeme {
    fn try_copy(&self, alloc: Global) -> Result<Lexeme, NoMemory> {
        Ok(Lexeme {
            steps: self.steps.try_copy(alloc)?,
        })
    }
}

impl TryCopy for Symbol {
    fn try_copy(&self, alloc: Global) -> Result<Symbol, NoMemory> {
        match self {
            Symbol::Quoted(text) => Ok(Symbol::Quoted(text.copy(alloc)?)),
            Symbol::Lexical(p) => Ok(Symbol::Lexical(*p)),
            Symbol::Nonterminal(n) => Ok(Symbol::Nonterminal(*n)),
        }
    }
}

impl TryCopy for Production {
    fn try_copy(&self, alloc: Global) -> Result<Production, NoMemory> {
        Ok(Production {
            name: self.name.copy(alloc)?,
            left: self.left,
            of: self.of,
            right: self.right.try_copy(alloc)?,
            expr: self.expr,
        })
    }
}

impl TryCopy for LevelLine {
    fn try_copy(&self, alloc: Global) -> Result<LevelLine, NoMemory> {
        Ok(LevelLine {
            group: self.group,
            literals: self.literals.try_copy(alloc)?,
        })
    }
}

impl Spec {
    /// An equal specification.
    pub fn copy(&self, alloc: Global) -> Result<Spec, NoMemory>
        ensures { IfOk result (λ c. c ≡ self.now) }
    {
        Ok(Spec {
            phyla: self.phyla.try_copy(alloc)?,
            ops: self.ops.try_copy(alloc)?,
            exprs: self.exprs.try_copy(alloc)?,
            rules: self.rules.try_copy(alloc)?,
            functions: self.functions.try_copy(alloc)?,
            transforms: self.transforms.try_copy(alloc)?,
            lexemes: self.lexemes.try_copy(alloc)?,
            productions: self.productions.try_copy(alloc)?,
            entries: self.entries.copy(alloc)?,
            levels: self.levels.try_copy(alloc)?,
            views: self.views.try_copy(alloc)?,
            root: self.root,
        })
    }
}

impl Plans {
    /// Equal plans.
    pub fn copy(&self, alloc: Global) -> Result<Plans, NoMemory>
        ensures { IfOk result (λ c. c ≡ self.now) }
    {
        Ok(Plans {
            visits: self.visits.try_copy(alloc)?,
            places: self.places.try_copy(alloc)?,
            steps: self.steps.try_copy(alloc)?,
        })
    }
}
