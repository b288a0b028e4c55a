//! The lines of single statements, and those round the statements within one.

ghost use Rattle.std.specs.Prelude.{◌≡◌, ◌+◌, ◌-◌, ◌<◌, ◌^◌, ◌∷◌, ◌++◌, [], Some, length, take, OnOk, IfOk};
ghost use Rattle.flat_code.specs.Costs.{addressed};
ghost use Rattle.il_emit.specs.Lines.{Label, Do, End, addresses_of, all_addressed, set_lines, load_lines, store_lines, move_lines, call_lines, exit_at, is_next, fresh, goal_label, own_label, seq_end, branch_lines, return_lines, leave_lines, result_param, first_arg, rest_of, arg_lines, args_of, frame_lines};
ghost use Rattle.il_emit.specs.Names.{label_name};
ghost use Rattle.il_emit.specs.Emitting.{Emits};

use crate::emitter::Emitter;
use crate::goal::{Goal, fresh};
use crate::names::{frame_name, label_name, same_text, temp_name};
use crate::op::{il_op, load_op};
use crate::operand::second;
use crate::source::Signature;
use flat_code::{Data, LoadKind, Op, Value};
use hx_base::{Class, Text};
use il_code::{IlArg, IlArgs, IlOp, IlParam, IlValue, Inst, Jump};
use std::alloc::{AllocError, Global};

/// What a call's result goes to.
fn result_param(
    alloc: Global,
    temp: Option<u32>,
    class: Option<Class>,
) -> Result<Option<IlParam>, AllocError>
    ensures { IfOk result (λ p. p ≡ result_param temp class) }
{
    match (temp, class) {
        (Some(t), Some(class)) => {
            let name = temp_name(alloc, t)?;
            Ok(Some(IlParam { name, class }))
        }
        _ => Ok(None),
    }
}

/// Adds an argument at the first of some classes.
fn push_first(out: &mut IlArgs, classes: &[Class], value: IlValue) -> Result<(), AllocError>
    ensures { OnOk result (out.new ≡ out.old ++ first_arg classes.now value) }
{
    match classes {
        [] => Ok(()),
        [class, ..] => out.push(IlArg {
            class: *class,
            value,
        }),
    }
}

/// The classes behind the first.
fn rest_of<'a>(classes: &'a [Class]) -> &'a [Class]
    ensures { result.now ≡ rest_of classes.now }
{
    match classes {
        [] => classes,
        [_, rest @ ..] => rest,
    }
}

/// What a call is.
fn call_inst(
    alloc: Global,
    temp: Option<u32>,
    class: Option<Class>,
    name: &Text,
    args: IlArgs,
) -> Result<Inst, AllocError>
    ensures { IfOk result (λ i. i ≡ Inst.Call (result_param temp class) name.now args) }
{
    let to = result_param(alloc, temp, class)?;
    let target = same_text(alloc, name)?;
    Ok(Inst::Call {
        result: to,
        target,
        args,
    })
}

impl Emitter {
    /// Sets a temporary to what an operation gives.
    pub fn set(
        &mut self,
        globals: &[Data],
        temp: u32,
        class: Class,
        op: Op,
        a: Value,
        b: Value,
    ) -> Result<(), AllocError>
        ensures { OnOk result (Emits self.old self.new
            (set_lines globals.now temp class op a b self.old.addresses) 0 (addressed a + addressed b) self.old.exits.items) }
    {
        let a = self.operand(globals, a)?;
        let b = self.operand(globals, b)?;
        let temp = temp_name(self.alloc, temp)?;
        self.inst(Inst::Set {
            temp,
            class,
            op: il_op(op),
            a,
            b: second(op.kind().takes_two(), b),
        })
    }

    /// Sets a temporary to the number at an address.
    pub fn load(
        &mut self,
        globals: &[Data],
        temp: u32,
        how: LoadKind,
        at: Value,
    ) -> Result<(), AllocError>
        ensures { OnOk result (Emits self.old self.new
            (load_lines globals.now temp how at self.old.addresses) 0 (addressed at) self.old.exits.items) }
    {
        let at = self.operand(globals, at)?;
        let temp = temp_name(self.alloc, temp)?;
        self.inst(Inst::Set {
            temp,
            class: Class::L,
            op: load_op(how),
            a: at,
            b: None,
        })
    }

    /// Stores so many bytes of a number at an address.
    pub fn store(
        &mut self,
        globals: &[Data],
        width: u32,
        value: Value,
        at: Value,
    ) -> Result<(), AllocError>
        ensures { OnOk result (Emits self.old self.new
            (store_lines globals.now width value at self.old.addresses) 0 (addressed value + addressed at) self.old.exits.items) }
    {
        let value = self.operand(globals, value)?;
        let at = self.operand(globals, at)?;
        self.inst(Inst::Store { width, value, at })
    }

    /// Copies bytes.
    pub fn copy(
        &mut self,
        globals: &[Data],
        to: Value,
        from: Value,
        bytes: u64,
    ) -> Result<(), AllocError>
        ensures { OnOk result (Emits self.old self.new
            (move_lines globals.now to from bytes self.old.addresses) 0 (addressed to + addressed from) self.old.exits.items) }
    {
        let to = self.operand(globals, to)?;
        let from = self.operand(globals, from)?;
        self.inst(Inst::Blit { from, to, bytes })
    }

    /// Takes the frame of a function, where it has bytes.
    pub fn frame(&mut self, bytes: u64) -> Result<(), AllocError>
        ensures { OnOk result (Emits self.old self.new (frame_lines bytes) 0 0 self.old.exits.items) }
    {
        if bytes == 0 {
            return Ok(());
        }
        let temp = frame_name(self.alloc)?;
        self.inst(Inst::Set {
            temp,
            class: Class::L,
            op: IlOp::Alloc16,
            a: IlValue::Number(bytes),
            b: None,
        })
    }

    /// Calls a function with this signature.
    pub fn call(
        &mut self,
        globals: &[Data],
        signature: &Signature,
        temp: Option<u32>,
        name: &Text,
        args: &[Value],
    ) -> Result<(), AllocError>
        ensures { OnOk result (Emits self.old self.new
            (call_lines globals.now signature.now.params.now signature.now.result temp name.now args.now self.old.addresses)
            0 (all_addressed args.now) self.old.exits.items) }
    {
        let args = self.args(globals, signature.params, args)?;
        let call = call_inst(self.alloc, temp, signature.result, name, args)?;
        self.inst(call)?;
        Ok(())
    }

    /// The arguments of a call, behind what computes their addresses.
    fn args(
        &mut self,
        globals: &[Data],
        classes: &[Class],
        args: &[Value],
    ) -> Result<IlArgs, AllocError>
        ensures value { IfOk result (λ xs. xs ≡ args_of globals.now classes.now args.now self.old.addresses) }
        ensures ok { OnOk result (Emits self.old self.new
            (arg_lines globals.now args.now self.old.addresses) 0 (all_addressed args.now) self.old.exits.items) }
    {
        let mut out = IlArgs::new(self.alloc);
        let mut classes_left = classes;
        let mut left = args;
        'each: while let [v, more @ ..] = left {
            let value = self.operand(globals, *v)?;
            push_first(&mut out, classes_left, value)?;
            classes_left = rest_of(classes_left);
            left = more;
        }
        Ok(out)
    }

    /// Returns, with a value if there is one. Lines that stand behind have a block of their own.
    pub fn ret(
        &mut self,
        globals: &[Data],
        value: Option<Value>,
        goal: Goal,
    ) -> Result<(), AllocError>
        ensures { OnOk result (Emits self.old self.new
            (return_lines globals.now value goal self.old.labels self.old.addresses)
            (fresh (is_next goal)) (addresses_of value) self.old.exits.items) }
    {
        let n = self.take_labels(goal.fresh())?;
        match value {
            None => {
                self.end(Jump::Ret(None))?;
                self.own_label(goal, n)
            }
            Some(v) => {
                let v = self.operand(globals, v)?;
                self.end(Jump::Ret(Some(v)))?;
                self.own_label(goal, n)
            }
        }
    }

    /// Leaves a Seq or Loop. Lines that stand behind have a block of their own.
    #[inline(never)]
    pub fn leave(&mut self, j: u32, goal: Goal) -> Result<(), AllocError>
        ensures { OnOk result (Emits self.old self.new
            (leave_lines (exit_at self.old.exits.items j) goal self.old.labels) (fresh (is_next goal)) 0 self.old.exits.items) }
    {
        let x = self.exit(j);
        match goal {
            Goal::Near(y) if x == y => Ok(()),
            Goal::Near(_) | Goal::Far(_) => {
                let jump = self.jump_to(x)?;
                self.end(jump)
            }
            Goal::Next => {
                let n = self.take_labels(1)?;
                let jump = self.jump_to(x)?;
                self.end(jump)?;
                self.label(n)
            }
        }
    }

    /// Begins a Seq, and gives its own label.
    #[inline(never)]
    pub fn begin_seq(&mut self, goal: Goal) -> Result<u64, AllocError>
        ensures first { IfOk result (λ n. n ≡ self.old.labels) }
        ensures ok { OnOk result (Emits self.old self.new [] (fresh (is_next goal)) 0
            (self.old.exits.items ++ goal_label goal self.old.labels ∷ [])) }
    {
        let n = self.take_labels(goal.fresh())?;
        self.exits.push(goal.label(n))?;
        Ok(n)
    }

    /// Ends the Seq with this own label.
    #[inline(never)]
    pub fn end_seq(&mut self, is_empty: bool, goal: Goal, n: u64) -> Result<(), AllocError>
        ensures { OnOk result (Emits self.old self.new (seq_end is_empty goal n) 0 0
            (take (length self.old.exits.items - 1) self.old.exits.items)) }
    {
        let _ = self.exits.pop();
        if is_empty {
            self.go(goal.inner(n))?;
        }
        self.own_label(goal, n)
    }

    /// Takes the labels of an If, whose sides have lines or not, and gives the first, which is its own where its goal is the next lines.
    pub fn begin_if(&mut self, goal: Goal, yes: bool, no: bool) -> Result<u64, AllocError>
        ensures first { IfOk result (λ n. n ≡ self.old.labels) }
        ensures fits { OnOk result (self.old.labels + fresh (is_next goal) + fresh yes + fresh no < 2 ^ 64) }
        ensures ok { OnOk result (Emits self.old self.new [] (fresh (is_next goal) + fresh yes + fresh no) 0 self.old.exits.items) }
    {
        self.take_labels(goal.fresh() + fresh(yes) + fresh(no))
    }

    /// Branches on a condition to the blocks of two numbers.
    pub fn branch(
        &mut self,
        globals: &[Data],
        cond: Value,
        yes: u64,
        no: u64,
    ) -> Result<(), AllocError>
        ensures { OnOk result (Emits self.old self.new
            (branch_lines globals.now cond yes no self.old.addresses) 0 (addressed cond) self.old.exits.items) }
    {
        let value = self.operand(globals, cond)?;
        let yes = label_name(self.alloc, yes)?;
        let no = label_name(self.alloc, no)?;
        self.end(Jump::Jnz(value, yes, no))
    }

    /// Begins a Loop, and gives its first label, which is its own where its goal is the next lines. That of its body is the next.
    #[inline(never)]
    pub fn begin_loop(&mut self, goal: Goal) -> Result<u64, AllocError>
        ensures first { IfOk result (λ n. n ≡ self.old.labels) }
        ensures fits { OnOk result (self.old.labels + fresh (is_next goal) + 1 < 2 ^ 64) }
        ensures ok { OnOk result (Emits self.old self.new
            (End (Jump.Jmp (label_name (self.old.labels + fresh (is_next goal)))) ∷ Label (self.old.labels + fresh (is_next goal)) ∷ [])
            (fresh (is_next goal) + 1) 0 (self.old.exits.items ++ goal_label goal self.old.labels ∷ [])) }
    {
        let n = self.take_labels(goal.fresh() + 1)?;
        let body = n + goal.fresh();
        let entry = self.jump_to(body)?;
        self.end(entry)?;
        self.label(body)?;
        self.exits.push(goal.label(n))?;
        Ok(n)
    }

    /// Ends a Loop with this first label.
    #[inline(never)]
    pub fn end_loop(&mut self, goal: Goal, n: u64) -> Result<(), AllocError>
        requires { n + fresh (is_next goal) + 1 < 2 ^ 64 }
        ensures { OnOk result (Emits self.old self.new
            (End (Jump.Jmp (label_name (n + fresh (is_next goal)))) ∷ own_label goal n) 0 0
            (take (length self.old.exits.items - 1) self.old.exits.items)) }
    {
        let _ = self.exits.pop();
        let back = self.jump_to(n + goal.fresh())?;
        self.end(back)?;
        self.own_label(goal, n)
    }
}
