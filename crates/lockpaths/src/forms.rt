//! The normal forms of a section's stable paths.

ghost use Rattle.std.specs.Prelude.{◌≡◌, ◌<◌, ◌++◌, ◌∷◌, [], length, get_or, map, IfOk, not};
ghost use Rattle.std.specs.Option.{option_map};
ghost use Rattle.flow.specs.Working.PointList.{point_at};
ghost use Rattle.locks.specs.LockPaths.{is_fixed, stable, stable_value, owner_of};
ghost use Rattle.lockpaths.specs.declared.form.WalkState.TheVariants.{Where};
ghost use Rattle.lockpaths.specs.Working.Forms.{stable_path_of, owner_path_of, owner_path, replacement_of, bound_as, replacements_at, of_action, by_itself, IsPushed};
ghost use Rattle.lockpaths.specs.Working.Nodes.{local_path, nowhere, same_stable, IsNodeOf};
ghost use Rattle.lockpaths.specs.Working.States.{reads, or_local, IsState, IsBranch, IsBranchOf, IsStateOf, IsBoundIn, IsKept, IsReadAs, IsReached, IsFormOf};
ghost use Rattle.lockpaths.specs.Working.Walking.{IsNextOf};

use crate::form::{Branch, Form, OwnerBranch, WalkState};
use crate::nodes::Nodes;
use core_lang::tree::{Action, Expr, FieldStep, LocalKind, Section};
use flow::points::PointRef;
use indexmap::IndexMap;
use source::memory::NoMemory;
use std::alloc::Global;
use std::marker::Model;

/// The binding of a local by a `let` or a `var`, as far as stable paths need it.
#[derive(Drop)]
pub struct Bound {
    /// The local, an index into [`core_lang::tree::Section::locals`].
    pub local: usize,
    /// The owner by its `where`, if it has one that names a parameter or a `let`.
    pub owner: Option<OwnerBranch>,
    /// Its value, if that is a stable path.
    pub value: Option<Form>,
    /// How a walk goes on from it, if it has a `where` that names a parameter or a `let`.
    pub branch: Option<Branch>,
}

/// For each local of a section, the state from which a walk along a path goes on that begins at the local. The value of
/// a local is therefore walked once, and not for each path that begins at it.
#[derive(Drop)]
pub struct Forms {
    alloc: Global,
    // The normal forms, and their prefixes.
    nodes: Nodes,
    // The bindings, in the order of the points.
    bounds: Vec<Bound>,
    // The state of each bound local.
    states: IndexMap<usize, WalkState>,
}

impl Model for Forms {
    ghost use Rattle.std.specs.Prelude.{nat_eq};
    ghost use Rattle.indexmap.specs.IndexMap.{get};
    ghost use Rattle.lockpaths.specs.Working.States.{Known, AreForms, known};

    ghost Value = { Known };

    ghost view = { λ f. known f.bounds.items f.nodes };

    ghost invariant = { λ f. AreForms (known f.bounds.items f.nodes) (get nat_eq f.states) };
}

// Appends the numbers of fields, and returns whether all of them are final.
fn push_finals(finals: &mut Vec<u32>, fields: &[FieldStep]) -> Result<bool, NoMemory>
    ensures { IfOk result (λ whole. IsPushed finals.old.items fields.now whole finals.new.items) }
{
    for field in fields {
        match field {
            FieldStep::Final { number, .. } => finals.push(*number)?,
            FieldStep::Field { .. } => return Ok(false),
        }
    }
    Ok(true)
}

fn can_change(kind: LocalKind) -> bool
    ensures { is_fixed kind ≡ not result }
{
    matches!(kind, LocalKind::Var)
}

/// Whether a local is a parameter or a `let`, which makes it a stable path by itself.
pub fn is_fixed_local(section: &Section, local: usize) -> bool
    ensures { stable section.now local [] ≡ by_itself local result }
{
    match section.locals.get(local) {
        Some(declared) => !can_change(declared.kind),
        None => false,
    }
}

// A local followed by fields, if that is a stable path.
fn stable(
    alloc: Global,
    section: &Section,
    local: usize,
    fields: &[FieldStep],
) -> Result<Option<Form>, NoMemory>
    ensures { IfOk result (λ form. option_map stable_path_of form ≡ stable section.now local fields.now) }
{
    let Some(declared) = section.locals.get(local) else {
        return Ok(None);
    };
    if can_change(declared.kind) {
        return Ok(None);
    }
    let mut finals = Vec::new(alloc);
    if push_finals(&mut finals, fields)? {
        Ok(Some(Form {
            root: local,
            finals,
        }))
    } else {
        Ok(None)
    }
}

// An initialiser, if it is a stable path, with a `where` or without.
fn stable_value(alloc: Global, section: &Section, value: &Expr) -> Result<Option<Form>, NoMemory>
    ensures { IfOk result (λ form. option_map stable_path_of form ≡ stable_value section.now value.now) }
{
    match value {
        Expr::Place(path) => {
            if path.in_parentheses {
                return Ok(None);
            }
            stable(alloc, section, path.local, &path.fields)
        }
        Expr::Owned { value, .. } => stable_value(alloc, section, value),
        Expr::Number(_)
        | Expr::Null
        | Expr::Global { .. }
        | Expr::Element { .. }
        | Expr::Member { .. }
        | Expr::Negate(_)
        | Expr::Chain { .. } => Ok(None),
    }
}

// The owner by the `where` of an initialiser.
fn owner(section: &Section, value: &Expr) -> Option<OwnerBranch>
    ensures { option_map owner_path_of result ≡ owner_of section.now value.now }
{
    match value {
        Expr::Owned { number, owner, .. } => fixed_owner(section, *number, *owner as usize),
        Expr::Number(_)
        | Expr::Null
        | Expr::Place(_)
        | Expr::Global { .. }
        | Expr::Element { .. }
        | Expr::Member { .. }
        | Expr::Negate(_)
        | Expr::Chain { .. } => None,
    }
}

fn fixed_owner(section: &Section, number: u32, local: usize) -> Option<OwnerBranch>
    ensures { option_map owner_path_of result ≡ option_map (owner_path number) (stable section.now local []) }
{
    if is_fixed_local(section, local) {
        Some(OwnerBranch { number, local })
    } else {
        None
    }
}

// How a walk goes on.
#[derive(Clone, Copy)]
enum Next {
    // From this node.
    From(usize),
    // By a `where`, which has led to this state.
    To(WalkState),
}

impl Forms {
    /// The states of the locals of a section that has these points.
    pub fn of(alloc: Global, section: &Section, points: &[PointRef]) -> Result<Forms, NoMemory>
        ensures { IfOk result (λ f. f.table ≡ replacements_at section.now (map point_at points.now)) }
    {
        let mut forms = Forms {
            alloc,
            nodes: Nodes::new(alloc),
            bounds: Vec::new(alloc),
            states: IndexMap::new(alloc),
        };
        for point in points {
            forms = forms.behind_point(section, *point)?;
        }
        Ok(forms)
    }

    // The states after a point.
    fn behind_point(self, section: &Section, point: PointRef<'_>) -> Result<Forms, NoMemory>
        ensures { IfOk result (λ f. f.table ≡ self.table ++ replacements_at section.now (point_at point.entry ∷ [])) }
    {
        match point {
            PointRef::Statement(statement) => self.behind(section, &statement.action),
            PointRef::Result(_) => Ok(self),
        }
    }

    // The states after a statement.
    fn behind(self, section: &Section, action: &Action) -> Result<Forms, NoMemory>
        ensures { IfOk result (λ f. f.table ≡ self.table ++ of_action section.now action.now) }
    {
        match action {
            Action::Bind { local, value } => {
                let owner = owner(section, value);
                let form = stable_value(self.alloc, section, value)?;
                self.bind(*local, owner, form)
            }
            // The value of a helper is not a stable path.
            Action::Call {
                result: Some(local),
                ..
            } => self.bind(*local, None, None),
            _ => Ok(self),
        }
    }

    // The states after a `let` or a `var`.
    fn bind(
        self,
        local: usize,
        owner: Option<OwnerBranch>,
        value: Option<Form>,
    ) -> Result<Forms, NoMemory>
        ensures { IfOk result (λ f. f.table ≡ self.table ++ bound_as local owner value ∷ []) }
    {
        let mut forms = self;
        let other = forms.other(local, &value)?;
        let branch = forms.branch_of(owner, other)?;
        let state = forms.bound_state(branch, other);
        forms.with(
            Bound {
                local,
                owner,
                value,
                branch,
            },
            state,
        )
    }

    // The state of a local without regard to a `where`, after it is bound.
    fn other(&mut self, local: usize, value: &Option<Form>) -> Result<WalkState, NoMemory>
        ensures kept { IsKept self.old self.new }
        ensures state { IfOk result (λ s. IsReadAs self.new s (or_local local value.now)) }
    {
        match value {
            Some(form) => self.state_of(form),
            None => self.state(local),
        }
    }

    // How a walk goes on by a `where`.
    fn branch_of(
        &mut self,
        owner: Option<OwnerBranch>,
        other: WalkState,
    ) -> Result<Option<Branch>, NoMemory>
        requires { IsState self.old other }
        ensures kept { IsKept self.old self.new }
        ensures branch { IfOk result (IsBranchOf self.new owner other) }
    {
        let Some(owner) = owner else {
            return Ok(None);
        };
        let past = self.state(owner.local)?;
        Ok(Some(Branch {
            number: owner.number,
            past,
            other,
            node: self.node(other),
        }))
    }

    // The state of the local that is bound next.
    fn bound_state(&self, branch: Option<Branch>, other: WalkState) -> WalkState
        ensures { IsStateOf self.now other result branch }
    {
        match branch {
            Some(_) => WalkState::Where(self.bounds.len()),
            None => other,
        }
    }

    // The states with one more binding.
    fn with(self, bound: Bound, state: WalkState) -> Result<Forms, NoMemory>
        requires { IsBoundIn self bound state }
        ensures { IfOk result (λ f. f.table ≡ self.table ++ replacement_of bound ∷ []) }
    {
        let Forms {
            alloc,
            nodes,
            mut bounds,
            mut states,
        } = self;
        states.insert(bound.local, state)?;
        bounds.push(bound)?;
        Ok(Forms {
            alloc,
            nodes,
            bounds,
            states,
        })
    }

    // The state of a local by itself.
    fn state(&mut self, local: usize) -> Result<WalkState, NoMemory>
        ensures kept { IsKept self.old self.new }
        ensures state { IfOk result (λ s. IsReadAs self.new s (local_path local)) }
    {
        match self.states.get(&local) {
            Some(state) => Ok(*state),
            None => Ok(WalkState::Node(self.nodes.local(local)?)),
        }
    }

    // The state of a stable path.
    fn state_of(&mut self, form: &Form) -> Result<WalkState, NoMemory>
        ensures kept { IsKept self.old self.new }
        ensures state { IfOk result (λ s. IsReadAs self.new s (stable_path_of form.now)) }
    {
        let state = self.state(form.root)?;
        self.walk(state, &form.finals)
    }

    // Moves from a state over final references, and returns the state that they lead to.
    fn walk(&mut self, state: WalkState, numbers: &[u32]) -> Result<WalkState, NoMemory>
        requires { IsState self.old state }
        ensures kept { IsKept self.old self.new }
        ensures state { IfOk result (IsReached self.old state numbers.now self.new) }
    {
        let mut at = state;
        for number in numbers {
            at = self.step(at, *number)?;
        }
        Ok(at)
    }

    // Moves from a state over a final reference, and returns the state that it leads to.
    fn step(&mut self, state: WalkState, number: u32) -> Result<WalkState, NoMemory>
        requires { IsState self.old state }
        ensures kept { IsKept self.old self.new }
        ensures state { IfOk result (IsReached self.old state (number ∷ []) self.new) }
    {
        match self.next(state, number) {
            Next::To(state) => Ok(state),
            Next::From(node) => Ok(WalkState::Node(self.nodes.step(node, number)?)),
        }
    }

    // How a walk goes on from a state by a final reference. A `where` takes precedence over the value.
    fn next(&self, state: WalkState, number: u32) -> Next
        requires { IsState self.now state }
        ensures { IsNextOf self.now state number result }
    {
        let mut at = state;
        'states: loop {
            match at {
                WalkState::Node(node) => return Next::From(node),
                WalkState::Where(bound) => {
                    let branch = self.branch_at(bound);
                    if branch.number == number {
                        return Next::To(branch.past);
                    }
                    at = branch.other;
                }
            }
        }
    }

    // How a walk goes on from what is bound with a `where`.
    fn branch_at(&self, bound: usize) -> Branch
        requires { IsState self.now (Where bound) }
        ensures { IsBranch self.now bound result }
    {
        match self.bounds[bound].branch {
            Some(branch) => branch,
            None => unreachable!(),
        }
    }

    // The normal form at a state.
    fn node(&self, state: WalkState) -> usize
        requires { IsState self.now state }
        ensures { IsNodeOf self.now.paths (reads self.now state []) result }
    {
        match state {
            WalkState::Node(node) => node,
            WalkState::Where(bound) => self.branch_at(bound).node,
        }
    }

    /// The node of the normal form of a local followed by fields and these final references, if that is a stable path.
    pub fn form_at(
        &mut self,
        section: &Section,
        local: usize,
        fields: &[FieldStep],
        through: &[u32],
    ) -> Result<Option<usize>, NoMemory>
        ensures kept { IsKept self.old self.new }
        ensures node { IfOk result (IsFormOf section.now self.new local fields.now through.now) }
    {
        let Some(mut form) = stable(self.alloc, section, local, fields)? else {
            return Ok(None);
        };
        form.finals.extend_from_slice(through)?;
        let state = self.state_of(&form)?;
        Ok(Some(self.node(state)))
    }

    /// Whether two nodes have equal paths.
    pub fn is_same(&self, a: usize, b: usize) -> bool
        requires a { a < length self.now.paths }
        requires b { b < length self.now.paths }
        ensures { result ≡ same_stable (get_or self.now.paths a nowhere) (get_or self.now.paths b nowhere) }
    {
        self.nodes.is_same(a, b)
    }

    /// The path of a node.
    pub fn path(&self, node: usize) -> Result<Form, NoMemory>
        requires { node < length self.now.paths }
        ensures { IfOk result (λ form. stable_path_of form ≡ get_or self.now.paths node nowhere) }
    {
        self.nodes.path(node)
    }
}
