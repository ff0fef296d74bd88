// What does not change while an editor works.
ghost use Rattle.std.specs.Prelude.{◌≡◌, ◌≤◌, IfOk};
ghost use Rattle.sg_kinds.specs.Sound.{IsSound};
ghost use Rattle.sg_commands.specs.Input.{IsInputOf};
ghost use Rattle.sg_editor.specs.Ask.{AreReaders, Readers};

use sg_buffer::Attribution;
use sg_commands::Input;
use sg_kinds::memory::NoMemory;
use sg_kinds::spec::Spec;
use sg_lalr::Tables;
use sg_load::Loaded;
use sg_patterns::Lexemes;
use std::alloc::Global;
use std::marker::Model;
use std::rc::Rc;

/// An accepted specification with what was made of it, and a window. The type keeps that all was made of this
/// specification, and that the window's height is from 1 to 1,024.
#[derive(Drop)]
pub struct Base {
    alloc: Global,
    attribution: Rc<Attribution>,
    tables: Tables,
    lexemes: Lexemes,
    width: usize,
    height: usize,
}

impl Model for Base {
    ghost use Rattle.std.specs.Prelude.{◌≤◌};
    ghost use Rattle.sg_kinds.specs.contracts.plans.Plans as plans_type;
    ghost use Rattle.sg_kinds.specs.contracts.spec.Spec as spec_type;
    ghost use Rattle.sg_lalr.specs.contracts.table.Tables as tables_type;
    ghost use Rattle.sg_patterns.specs.contracts.lexemes.Lexemes as lexemes_type;
    ghost use Rattle.sg_load.specs.Loaded.{BelongTogether, contents, contents_code};
    ghost use Rattle.sg_editor.specs.Editing.{Setting, setting_code};

    ghost Value = { Setting };

    ghost coded = { setting_code (contents_code spec_type.the_row.coded plans_type.the_row.coded
        tables_type.the_row.coded lexemes_type.the_row.coded) };

    ghost view = { λ b. record {
      contents = contents b.attribution.value.spec b.attribution.value.plans b.tables b.lexemes;
      width = b.width;
      height = b.height;
    } };

    ghost invariant = { λ b. BelongTogether (contents b.attribution.value.spec b.attribution.value.plans b.tables
        b.lexemes) × (1 ≤ b.height) × (b.height ≤ 1024) };
}

impl Base {
    /// The base of an editor of this specification, with a window of so many columns and lines.
    pub fn new(alloc: Global, loaded: Loaded, width: usize, height: usize) -> Result<Base, NoMemory>
        requires low { 1 ≤ height }
        requires high { height ≤ 1024 }
        ensures { IfOk result (λ b. b ≡ record { contents = loaded; width = width; height = height }) }
    {
        let Loaded {
            spec,
            plans,
            tables,
            lexemes,
        } = loaded;
        let attribution = Attribution::new(alloc, &spec, plans)?;
        Ok(Base {
            alloc,
            attribution: Rc::new(alloc, attribution)?,
            tables,
            lexemes,
            width,
            height,
        })
    }

    /// The allocator.
    pub fn alloc(&self) -> Global {
        self.alloc
    }

    /// The specification.
    pub fn spec(&self) -> &Spec
        ensures spec { result.now ≡ self.now.contents.spec }
        ensures sound { IsSound self.now.contents.spec }
    {
        self.attribution.facts();
        self.attribution.evaluator().spec()
    }

    /// What buffers compute values with.
    pub fn attribution(&self) -> &Rc<Attribution>
        ensures { result.now.value.spec ≡ self.now.contents.spec }
    {
        &self.attribution
    }

    /// How texts are read.
    pub fn input(&self) -> Input<'_>
        ensures { IsInputOf self.now.contents.spec result }
    {
        Input {
            tables: &self.tables,
            lexemes: &self.lexemes,
        }
    }

    /// There are right readers of texts and files. This does nothing and tells it.
    pub fn readers(&self)
        ensures { (r : Readers) × AreReaders self.now.contents.spec r }
    {
        self.tables.sound();
        self.tables.decided();
    }

    /// How many columns the window has.
    pub fn width(&self) -> usize
        ensures { result ≡ self.now.width }
    {
        self.width
    }

    /// How many lines it has.
    pub fn height(&self) -> usize
        ensures result { result ≡ self.now.height }
        ensures low { 1 ≤ self.now.height }
        ensures high { self.now.height ≤ 1024 }
    {
        self.height
    }
}
