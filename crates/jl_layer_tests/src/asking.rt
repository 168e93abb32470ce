//! What is asked of layers in words, and what they answer.
//!
//! A module is written `NAME@LAYER`: the one that the layer finds by the name. A line of words is one of these:
//! `find M`, `lead M CLASS`, `loader M`, `module M`, `layer L`, `reads M M`, `exported M PACKAGE TO`,
//! `opened M PACKAGE TO`, `uses M CLASS`, `class M PACKAGE M PACKAGE` and `deep` likewise for the verdicts on a public
//! class and on a private member of it, and the changes `impose CLASS M M`, `add-reads M M`,
//! `add-exports M PACKAGE TO`, `add-opens M PACKAGE TO`, `add-uses M CLASS`. TO is a module or `all`.

ghost use Rattle.std.specs.Prelude.{IfOk};
ghost use Rattle.jl_loaders.specs.Loaders.{IsLoader};
ghost use Rattle.jl_layer.specs.Layers.{IsLayer, IsModule};

use crate::making::words;
use crate::stage::Stage;
use jl_access::{Access, MemberAccess, Place};
use jl_layer::LayerFault;
use jl_loaders::ConstraintFault;
use jl_prim::{ConfigId, LayerId, LoaderId, ModuleId, Name, ParentLoader};
use std::alloc::Global;
use std::test::Fail;

impl Stage {
    /// What comes of a line of words.
    pub fn answer(&mut self, alloc: Global, line: &str) -> Result<String, Fail> {
        let all = words(alloc, line)?;
        match all.as_slice() {
            ["impose", name, one, other] => self.imposed(alloc, *name, *one, *other),
            ["add-reads", a, b] => self.added_reads(alloc, *a, *b),
            ["add-exports", m, package, to] => self.added_grant(alloc, false, *m, *package, *to),
            ["add-opens", m, package, to] => self.added_grant(alloc, true, *m, *package, *to),
            ["add-uses", m, service] => self.added_uses(alloc, *m, *service),
            asked => self.told(alloc, asked),
        }
    }

    /// What is told of layers, which stay.
    fn told(&self, alloc: Global, asked: &[&str]) -> Result<String, Fail> {
        match asked {
            ["find", m] => self.found(alloc, *m),
            ["lead", m, class] => self.lead(alloc, *m, *class),
            ["loader", m] => self.loader_number(alloc, *m),
            ["module", m] => self.module_shown(alloc, *m),
            ["layer", l] => self.layer_shown(alloc, *l),
            _ => self.granted(alloc, asked),
        }
    }

    /// What one module may do with another.
    fn granted(&self, alloc: Global, asked: &[&str]) -> Result<String, Fail> {
        let facts = self.layers().facts();
        let answer = match asked {
            ["reads", a, b] => shown_bool(facts.reads(self.module(*a)?, self.module(*b)?)),
            ["exported", m, package, to] => {
                shown_bool(facts.exported(self.module(*m)?, package.as_bytes(), self.target(*to)?))
            }
            ["opened", m, package, to] => {
                shown_bool(facts.opened(self.module(*m)?, package.as_bytes(), self.target(*to)?))
            }
            ["uses", m, service] => shown_bool(facts.uses(self.module(*m)?, service.as_bytes())),
            ["class", m, p, n, q] => {
                let (from, to) = (self.place(alloc, *m, *p)?, self.place(alloc, *n, *q)?);
                facts.class_verdict(&from, &to, true).text()
            }
            ["deep", m, p, n, q] => {
                let (from, to) = (self.place(alloc, *m, *p)?, self.place(alloc, *n, *q)?);
                facts.deep_verdict(&from, &to, true, &HIDDEN).text()
            }
            _ => return Err(Fail::new("no question")),
        };
        Ok(String::from_str(alloc, answer)?)
    }

    fn found(&self, alloc: Global, text: &str) -> Result<String, Fail> {
        self.shown(alloc, self.find(text)?)
    }

    fn lead(&self, alloc: Global, text: &str, class: &str) -> Result<String, Fail> {
        let l = self.loader(text)?;
        self.shown(alloc, self.layers().loaders().lead(l, class.as_bytes()))
    }

    fn loader_number(&self, alloc: Global, text: &str) -> Result<String, Fail> {
        let l = self.loader(text)?;
        Ok(format!(in alloc; "{}", l.0)?)
    }

    /// The name of a module, the place of its files, its layer, and the number of packages that its loader has.
    fn module_shown(&self, alloc: Global, text: &str) -> Result<String, Fail> {
        let m = self.module(text)?;
        let l = self.loader(text)?;
        let layers = self.layers();
        let (name, place, layer) = (
            layers.module_name(m),
            layers.place_of(m),
            layers.layer_of(m),
        );
        let packages = layers.loaders().map_of(l).len();
        Ok(format!(in alloc; "{name} {place} {} {packages}", layer.0)?)
    }

    /// The number of a layer's configuration, and how many parents and modules it has.
    fn layer_shown(&self, alloc: Global, text: &str) -> Result<String, Fail> {
        let l = self.layer(text)?;
        let layers = self.layers();
        let (cf, parents, modules) = (
            layers.config_of(l),
            layers.parents_of(l).len(),
            layers.modules_of(l).len(),
        );
        Ok(format!(in alloc; "{} {parents} {modules}", cf.0)?)
    }

    fn imposed(
        &mut self,
        alloc: Global,
        name: &str,
        one: &str,
        other: &str,
    ) -> Result<String, Fail> {
        let (one, other) = (self.loader(one)?, self.loader(other)?);
        match self.impose(name, one, other)? {
            Ok(()) => Ok(String::from_str(alloc, "ok")?),
            Err(ConstraintFault::Clash { name, one, other }) => {
                let (one, other) = (
                    self.shown(alloc, Some(one))?,
                    self.shown(alloc, Some(other))?,
                );
                Ok(format!(in alloc; "Clash {name} {one} {other}")?)
            }
            Err(ConstraintFault::NoMemory) => Err(Fail::new("no memory")),
        }
    }

    fn added_reads(&mut self, alloc: Global, a: &str, b: &str) -> Result<String, Fail> {
        let (a, b) = (self.module(a)?, self.module(b)?);
        self.add_reads(a, b)?;
        Ok(String::from_str(alloc, "ok")?)
    }

    fn added_grant(
        &mut self,
        alloc: Global,
        is_opened: bool,
        m: &str,
        package: &str,
        to: &str,
    ) -> Result<String, Fail> {
        let (m, to) = (self.module(m)?, self.target(to)?);
        self.add_grant(is_opened, m, package, to)?;
        Ok(String::from_str(alloc, "ok")?)
    }

    fn added_uses(&mut self, alloc: Global, m: &str, service: &str) -> Result<String, Fail> {
        let m = self.module(m)?;
        self.add_uses(m, service)?;
        Ok(String::from_str(alloc, "ok")?)
    }

    // ---- by their names

    /// The layer with a number.
    pub fn layer(&self, text: &str) -> Result<LayerId, Fail>
        ensures { IfOk result (λ l. IsLayer self.now l) }
    {
        let l = LayerId(text.parse()?);
        if !self.is_layer(l) {
            return Err(Fail::new("no layer"));
        }
        Ok(l)
    }

    fn find(&self, text: &str) -> Result<Option<ModuleId>, Fail> {
        let (name, layer) = text.split_once('@').ok_or("a module")?;
        let l = self.layer(layer)?;
        Ok(self.layers().find_module(l, name.as_bytes()))
    }

    fn module(&self, text: &str) -> Result<ModuleId, Fail>
        ensures { IfOk result (λ m. IsModule self.now m) }
    {
        let m = self.find(text)?.ok_or("no module")?;
        if !self.is_module(m) {
            return Err(Fail::new("no module"));
        }
        Ok(m)
    }

    /// The loader of a module.
    pub fn loader(&self, text: &str) -> Result<LoaderId, Fail>
        ensures { IfOk result (λ l. IsLoader self.now.loaders l) }
    {
        let m = self.module(text)?;
        let l = self.layers().loader_of_module(m);
        if !self.is_loader(l) {
            return Err(Fail::new("no loader"));
        }
        Ok(l)
    }

    fn target(&self, text: &str) -> Result<Option<ModuleId>, Fail> {
        if text == "all" {
            return Ok(None);
        }
        Ok(Some(self.module(text)?))
    }

    /// The place of a class in a package of a module.
    fn place(&self, alloc: Global, text: &str, package: &str) -> Result<Place, Fail> {
        Ok(Place {
            module: self.module(text)?,
            loader: self.loader(text)?,
            package: Name::from_text(alloc, package)?,
        })
    }

    /// A module with its layer, or `-`.
    fn shown(&self, alloc: Global, m: Option<ModuleId>) -> Result<String, Fail> {
        let Some(m) = m else {
            return Ok(String::from_str(alloc, "-")?);
        };
        if !self.is_module(m) {
            return Err(Fail::new("no module"));
        }
        let (name, layer) = (self.layers().module_name(m), self.layers().layer_of(m));
        Ok(format!(in alloc; "{name}@{}", layer.0)?)
    }
}

/// A private member, used from another package.
const HIDDEN: MemberAccess = MemberAccess {
    access: Access::Private,
    is_static: false,
    same_class: false,
    same_nest: false,
    same_package: false,
    subclass: false,
    named_related: false,
};

fn shown_bool(answer: bool) -> &'static str {
    if answer { "yes" } else { "no" }
}

/// A refusal in words.
pub fn fault_shown(alloc: Global, fault: &LayerFault) -> Result<String, Fail> {
    Ok(match fault {
        LayerFault::ParentMismatch => String::from_str(alloc, "ParentMismatch")?,
        LayerFault::BaseAgain => String::from_str(alloc, "BaseAgain")?,
        LayerFault::JavaPackage(package) => format!(in alloc; "JavaPackage {package}")?,
        LayerFault::Overlap {
            package,
            one,
            other,
        } => format!(in alloc; "Overlap {package} {one} {other}")?,
        LayerFault::Split {
            package,
            one,
            other,
        } => format!(in alloc; "Split {package} {one} {other}")?,
        LayerFault::TooMany => String::from_str(alloc, "TooMany")?,
        LayerFault::NoMemory => return Err(Fail::new("no memory")),
    })
}
