// Where a statement stands, and the labels that a GOTO there may name.

ghost use Rattle.std.specs.Prelude.{◌≡◌, ◌++◌, map, IfOk, OnOk};
ghost use Rattle.std.specs.List.{list_any};
ghost use Rattle.pli_language.specs.Declaring.{same_place};
ghost use Rattle.pli_typing.specs.SingleStatements as S;
ghost use Rattle.pli_language.specs.View.{item_of, items_of, name_of};
ghost use Rattle.pli_tree.specs.Shown.{context_of, labels_of_groups, labels_of_item};

use pli_language::expr::{Name, Place};
use pli_language::stmt::{Item, Items};
use pli_reference::scope::Scope;
use std::alloc::{AllocError, Global};

/// The scope of a statement, the blocks around it from the innermost on, and the labels that it may name, those of one statement
/// together: of the outermost list of its block, of the lists inside that one from the innermost on, and of blocks around.
#[derive(Drop)]
pub struct Context<'t, 's, 'a> {
    pub scope: Scope<'t, 's, 'a>,
    pub around: Vec<usize>,
    pub outermost: Vec<&'a [Name]>,
    pub inner: Vec<&'a [Name]>,
    pub outer: Vec<&'a [Name]>,
}

/// A label stands at the place.
fn stands_at(label: &Name, place: Place) -> bool
    ensures { result ≡ same_place (name_of label.now).place place }
{
    label.place.line == place.line && label.place.column == place.column
}

/// One of these labels stands at the place.
fn any_label(labels: &[Name], place: Place) -> bool
    ensures { result ≡ list_any (λ n. same_place n.place place) (map name_of labels.now) }
{
    labels.iter().any(|label| stands_at(label, place))
}

/// One of these has a label at the place.
fn any_has(groups: &[&[Name]], place: Place) -> bool
    ensures { result ≡ list_any (λ n. same_place n.place place) (labels_of_groups groups.now) }
{
    groups.iter().any(|labels| any_label(labels, place))
}

/// The labels of one item.
#[tactic(auto, using(pli_language::proofs::Views::views))]
fn labels_of(item: &Item) -> &[Name]
    ensures { map name_of result.now ≡ labels_of_item (item_of item.now) }
{
    match item {
        Item::Procedure { .. } | Item::Declare { .. } => &[],
        Item::Statement { labels, .. } | Item::EndLabels { labels, .. } => labels,
    }
}

/// The labels of a list's own statements and of its END, behind others.
#[tactic(auto, using(crate::proofs::Labels::labels, crate::proofs::Labels::lists, crate::proofs::Labels::no_names))]
fn put_labels<'a>(out: &mut Vec<&'a [Name]>, items: &'a Items) -> Result<(), AllocError>
    ensures { OnOk result (labels_of_groups out.new.items ≡ labels_of_groups out.old.items ++ S.labels_in (items_of items.now)) }
{
    let mut rest = items;
    while let Items::More {
        first,
        rest: behind,
    } = rest
    {
        let labels = labels_of(first);
        if !labels.is_empty() {
            out.push(labels)?;
        }
        rest = behind;
    }
    Ok(())
}

impl<'t, 's, 'a> Context<'t, 's, 'a> {
    /// A GOTO here may name the label at the place.
    #[tactic(auto, using(crate::proofs::Labels::labels))]
    pub fn is_target(&self, place: Place) -> bool
        ensures { result ≡ S.is_target (context_of self.now) place }
    {
        any_has(&self.inner, place)
            || any_has(&self.outermost, place)
            || any_has(&self.outer, place)
    }

    /// In the list of a group.
    #[tactic(auto, using(crate::proofs::Labels::lists))]
    pub fn in_list(&self, alloc: Global, body: &'a Items) -> Result<Context<'t, 's, 'a>, AllocError>
        ensures { IfOk result (λ c. context_of c ≡ S.in_list (context_of self.now) (S.labels_in (items_of body.now))) }
    {
        let mut inner = Vec::new(alloc);
        put_labels(&mut inner, body)?;
        inner.extend_from_slice(&self.inner)?;
        Ok(Context {
            scope: self.scope,
            around: self.around.to_vec(alloc)?,
            outermost: self.outermost.to_vec(alloc)?,
            inner,
            outer: self.outer.to_vec(alloc)?,
        })
    }

    /// The labels that may be named here.
    #[tactic(auto, using(crate::proofs::Labels::lists))]
    fn visible(&self, alloc: Global) -> Result<Vec<&'a [Name]>, AllocError>
        ensures { IfOk result (λ v. labels_of_groups v.items ≡ (context_of self.now).inner ++ (context_of self.now).outermost ++ (context_of self.now).outer) }
    {
        let mut labels = self.inner.to_vec(alloc)?;
        labels.extend_from_slice(&self.outermost)?;
        labels.extend_from_slice(&self.outer)?;
        Ok(labels)
    }

    /// In a block with this number.
    #[tactic(auto, using(crate::proofs::Labels::lists))]
    pub fn in_block(
        &self,
        alloc: Global,
        number: usize,
        body: &'a Items,
    ) -> Result<Context<'t, 's, 'a>, AllocError>
        ensures { IfOk result (λ c. context_of c ≡ S.in_block (context_of self.now) number (S.labels_in (items_of body.now))) }
    {
        let mut around = Vec::new(alloc);
        around.push(number)?;
        around.extend_from_slice(&self.around)?;
        let mut outermost = Vec::new(alloc);
        put_labels(&mut outermost, body)?;
        Ok(Context {
            scope: Scope {
                tables: self.scope.tables,
                block: number,
            },
            around,
            outermost,
            inner: Vec::new(alloc),
            outer: self.visible(alloc)?,
        })
    }

    /// In an on-unit, which can name of its block's labels those of the outermost list alone.
    pub fn in_unit(&self, alloc: Global) -> Result<Context<'t, 's, 'a>, AllocError>
        ensures { IfOk result (λ c. context_of c ≡ S.in_unit (context_of self.now)) }
    {
        Ok(Context {
            scope: self.scope,
            around: self.around.to_vec(alloc)?,
            outermost: self.outermost.to_vec(alloc)?,
            inner: Vec::new(alloc),
            outer: self.outer.to_vec(alloc)?,
        })
    }
}
