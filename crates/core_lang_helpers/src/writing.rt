//! Statements, with the helpers that they call expanded in place.

ghost use Rattle.std.specs.Prelude.{◌≡◌, ◌+◌, [], length, IfOk, OnOk};
ghost use Rattle.core_lang.specs.WrittenLocals.{local_data};
ghost use Rattle.core_lang_helpers.specs.Working.Bodies.{bodies, at, WritesAnywhere, WritesOne, WritesBound, Wrote, WroteAll, WroteBlock, WroteBody, HasBound, HasReceived, IsCallee};
ghost use Rattle.core_lang_helpers.specs.Working.Bodies.{HasMore, local_at, locals_of, locals_of_all, received, kept_parameters, taken_parameters};

use crate::body::BodyWriter;
use crate::not_written_out::NotWrittenOut;
use crate::scope::{Pair, WrittenScope};
use core_lang::tree::{Action, Expr, Local, LocalKind, Return, Section, Stmt};
use core_lang::value::ValueType;
use std::alloc::Global;

impl<'a> BodyWriter<'a> {
    // Binds a local.
    fn bind(
        &self,
        local: usize,
        scope: &mut WrittenScope,
        locals: &mut Vec<Local>,
    ) -> Result<(), NotWrittenOut>
        ensures bound { OnOk result (HasBound local (at scope.old locals.old.items) (at scope.new locals.new.items)) }
        ensures locals { OnOk result (HasMore locals.old.items locals.new.items (local_at self.now local)) }
    {
        if local != scope.own {
            return Err(NotWrittenOut::Astray);
        }
        let Some(own) = self.section.locals.get(local) else {
            return Err(NotWrittenOut::Astray);
        };
        let written = locals.len();
        locals.push(copy(own, own.kind)?)?;
        scope.pairs.push(Pair {
            own: local,
            written,
        })?;
        scope.own = local + 1;
        Ok(())
    }

    // A `let` or a `var`.
    fn bound(
        &self,
        local: usize,
        value: &Expr,
        scope: &mut WrittenScope,
        locals: &mut Vec<Local>,
    ) -> Result<Action, NotWrittenOut>
        ensures written { IfOk result
            (λ y. WritesBound local value.now (at scope.old locals.old.items) y (at scope.new locals.new.items)) }
        ensures locals { OnOk result (HasMore locals.old.items locals.new.items (local_at self.now local)) }
    {
        let value = scope.expr(value)?;
        let fresh = locals.len();
        self.bind(local, scope, locals)?;
        Ok(Action::Bind {
            local: fresh,
            value,
        })
    }

    // An action that sets a local or a cell, or prints. It binds nothing.
    fn plain(&self, action: &Action, scope: &WrittenScope) -> Result<Action, NotWrittenOut>
        ensures written { IfOk result (λ y. WritesAnywhere (bodies self.now) action.now scope.now y) }
        ensures locals { OnOk result (locals_of self.now action.now ≡ []) }
    {
        match action {
            Action::SetLocal { local, value } => Ok(Action::SetLocal {
                local: scope.find(*local)?,
                value: scope.expr(value)?,
            }),
            Action::SetGlobal { cell, value } => Ok(Action::SetGlobal {
                cell: *cell,
                value: scope.expr(value)?,
            }),
            Action::SetElement {
                array,
                index,
                value,
            } => {
                let index = scope.expr(index)?;
                let value = scope.expr(value)?;
                Ok(Action::SetElement {
                    array: *array,
                    index,
                    value,
                })
            }
            Action::SetField {
                base,
                structure,
                field,
                value,
            } => {
                let base = scope.path(base)?;
                let value = scope.expr(value)?;
                Ok(Action::SetField {
                    base,
                    structure: *structure,
                    field: *field,
                    value,
                })
            }
            Action::Print(e) => Ok(Action::Print(scope.expr(e)?)),
            // A call is not a single action: `statement` passes it to `call`.
            _ => Err(NotWrittenOut::Astray),
        }
    }

    // An action other than a call.
    #[cycle(write)]
    fn action(
        &self,
        action: &Action,
        scope: &mut WrittenScope,
        locals: &mut Vec<Local>,
    ) -> Result<Action, NotWrittenOut>
        ensures written { IfOk result (λ y. WritesOne (bodies self.now) action.now (at scope.old locals.old.items) y
            (at scope.new locals.new.items)) }
        ensures locals { OnOk result (HasMore locals.old.items locals.new.items (locals_of self.now action.now)) }
    {
        match action {
            Action::Bind { local, value } => self.bound(*local, value, scope, locals),
            Action::If { condition, block } => {
                let condition = scope.condition(condition)?;
                let block = self.block(block, scope, locals)?;
                Ok(Action::If { condition, block })
            }
            Action::IfElse {
                condition,
                block,
                otherwise,
            } => {
                let condition = scope.condition(condition)?;
                let block = self.block(block, scope, locals)?;
                let otherwise = self.block(otherwise, scope, locals)?;
                Ok(Action::IfElse {
                    condition,
                    block,
                    otherwise,
                })
            }
            Action::While { condition, body } => {
                let condition = scope.condition(condition)?;
                let body = self.block(body, scope, locals)?;
                Ok(Action::While { condition, body })
            }
            _ => self.plain(action, scope),
        }
    }

    // A block. After it, its locals are no longer in scope.
    #[cycle(write)]
    fn block(
        &self,
        block: &[Stmt],
        scope: &mut WrittenScope,
        locals: &mut Vec<Local>,
    ) -> Result<Vec<Stmt>, NotWrittenOut>
        ensures written { IfOk result (λ ys. WroteBlock (bodies self.now) block.now (at scope.old locals.old.items)
            ys.items (at scope.new locals.new.items)) }
        ensures locals { OnOk result (HasMore locals.old.items locals.new.items (locals_of_all self.now block.now)) }
    {
        let in_scope = scope.pairs.len();
        let mut written = Vec::new(self.alloc);
        self.statements(block, scope, locals, &mut written)?;
        scope.pairs.truncate(in_scope);
        Ok(written)
    }

    #[cycle(write)]
    fn statements(
        &self,
        statements: &[Stmt],
        scope: &mut WrittenScope,
        locals: &mut Vec<Local>,
        written: &mut Vec<Stmt>,
    ) -> Result<(), NotWrittenOut>
        ensures written { OnOk result (WroteAll (bodies self.now) statements.now (at scope.old locals.old.items)
            written.old.items written.new.items (at scope.new locals.new.items)) }
        ensures locals { OnOk result
            (HasMore locals.old.items locals.new.items (locals_of_all self.now statements.now)) }
    {
        for statement in statements {
            self.statement(statement, scope, locals, written)?;
        }
        Ok(())
    }

    #[cycle(write)]
    fn statement(
        &self,
        statement: &Stmt,
        scope: &mut WrittenScope,
        locals: &mut Vec<Local>,
        written: &mut Vec<Stmt>,
    ) -> Result<(), NotWrittenOut>
        ensures written { OnOk result (Wrote (bodies self.now) statement.now (at scope.old locals.old.items)
            written.old.items written.new.items (at scope.new locals.new.items)) }
        ensures locals { OnOk result
            (HasMore locals.old.items locals.new.items (locals_of self.now statement.now.action)) }
    {
        if let Action::Call { .. } = &statement.action {
            if self.idle.is_idle_call(&statement.action, self.depth) {
                return Ok(());
            }
            return self.call(statement, scope, locals, written);
        }
        let action = self.action(&statement.action, scope, locals)?;
        written.push(Stmt {
            start: statement.start,
            action,
        })?;
        Ok(())
    }

    // A call: a `let` for each argument, the helper's body, and a `let` of its result.
    #[cycle(write)]
    fn call(
        &self,
        statement: &Stmt,
        scope: &mut WrittenScope,
        locals: &mut Vec<Local>,
        written: &mut Vec<Stmt>,
    ) -> Result<(), NotWrittenOut>
        ensures written { OnOk result (Wrote (bodies self.now) statement.now (at scope.old locals.old.items)
            written.old.items written.new.items (at scope.new locals.new.items)) }
        ensures locals { OnOk result
            (HasMore locals.old.items locals.new.items (locals_of self.now statement.now.action)) }
    {
        let Action::Call {
            helper,
            arguments,
            result,
        } = &statement.action
        else {
            return Err(NotWrittenOut::Astray);
        };
        let helper = self.callee(*helper, arguments.len())?;
        let first = locals.len();
        scope.lets(statement.start, arguments, first, written)?;
        helper.take_arguments(locals)?;
        match helper.body(first, locals, written)? {
            Some(returned) => {
                let local = locals.len();
                self.receive(*result, helper.section.result_type, scope, locals)?;
                let action = Action::Bind {
                    local,
                    value: returned.value,
                };
                written.push(Stmt {
                    start: returned.start,
                    action,
                })?;
                Ok(())
            }
            None => match (result, helper.section.result_type) {
                (None, None) => Ok(()),
                _ => Err(NotWrittenOut::Astray),
            },
        }
    }

    // The helper `number`, called with this number of arguments.
    fn callee(&self, number: usize, arguments: usize) -> Result<BodyWriter<'a>, NotWrittenOut>
        ensures { IfOk result (IsCallee self.now number arguments) }
    {
        let Some(section) = self.shape.helpers.get(number) else {
            return Err(NotWrittenOut::Astray);
        };
        if self.depth == 0 || arguments != section.parameters {
            return Err(NotWrittenOut::Astray);
        }
        Ok(BodyWriter {
            alloc: self.alloc,
            shape: self.shape,
            idle: self.idle,
            section,
            depth: self.depth - 1,
        })
    }

    // Appends a `let` for each parameter.
    fn take_arguments(&self, locals: &mut Vec<Local>) -> Result<(), NotWrittenOut>
        ensures count { OnOk result
            (length locals.new.items ≡ length locals.old.items + self.now.section.now.parameters) }
        ensures locals { OnOk result
            (HasMore locals.old.items locals.new.items (taken_parameters self.now.section.now)) }
    {
        for k in 0..self.section.parameters {
            let Some(own) = self.section.locals.get(k) else {
                return Err(NotWrittenOut::Astray);
            };
            locals.push(copy(own, LocalKind::Let)?)?;
        }
        Ok(())
    }

    /// Appends the parameters of a section as they are.
    pub fn keep_parameters(&self, locals: &mut Vec<Local>) -> Result<(), NotWrittenOut>
        ensures count { OnOk result
            (length locals.new.items ≡ length locals.old.items + self.now.section.now.parameters) }
        ensures locals { OnOk result
            (HasMore locals.old.items locals.new.items (kept_parameters self.now.section.now)) }
    {
        for k in 0..self.section.parameters {
            let Some(own) = self.section.locals.get(k) else {
                return Err(NotWrittenOut::Astray);
            };
            locals.push(copy(own, own.kind)?)?;
        }
        Ok(())
    }

    // Binds the local that a helper's result is given to, or a hidden one without a name.
    fn receive(
        &self,
        local: Option<usize>,
        result_type: Option<ValueType>,
        scope: &mut WrittenScope,
        locals: &mut Vec<Local>,
    ) -> Result<(), NotWrittenOut>
        ensures received { OnOk result
            (HasReceived local (at scope.old locals.old.items) (at scope.new locals.new.items)) }
        ensures locals { OnOk result (HasMore locals.old.items locals.new.items (received self.now local result_type)) }
    {
        if let Some(local) = local {
            return self.bind(local, scope, locals);
        }
        let Some(value_type) = result_type else {
            return Err(NotWrittenOut::Astray);
        };
        locals.push(Local {
            name: String::new(self.alloc),
            kind: LocalKind::Let,
            value_type,
        })?;
        Ok(())
    }

    /// Appends the statements of a body to `written`, and returns its result. Its parameters are the last locals so
    /// far, from `first` on.
    #[cycle(write)]
    pub fn body(
        &self,
        first: usize,
        locals: &mut Vec<Local>,
        written: &mut Vec<Stmt>,
    ) -> Result<Option<Return>, NotWrittenOut>
        requires { length locals.old.items ≡ first + self.now.section.now.parameters }
        ensures written { IfOk result (λ r. WroteBody (bodies self.now) self.now.section.now first written.old.items
            written.new.items r (length locals.new.items)) }
        ensures locals { OnOk result
            (HasMore locals.old.items locals.new.items (locals_of_all self.now self.now.section.now.body.items)) }
    {
        let mut scope = WrittenScope::entered(self.alloc, self.section.parameters, first)?;
        self.statements(&self.section.body, &mut scope, locals, written)?;
        if scope.own != self.section.locals.len() {
            return Err(NotWrittenOut::Astray);
        }
        let result = scope.returned(&self.section.result)?;
        Ok(result)
    }
}

// A copy of a local, of this kind.
fn copy(local: &Local, kind: LocalKind) -> Result<Local, NotWrittenOut>
    ensures { IfOk result (λ made. local_data made ≡ record (local_data local.now) { kind = kind }) }
{
    Ok(Local {
        name: local.name.clone()?,
        kind,
        value_type: local.value_type,
    })
}
