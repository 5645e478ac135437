//! Numbers in registers, and jumps that compare them.

ghost use Rattle.std.specs.Prelude.{◌≡◌, ◌<◌, ◌+◌, ◌-◌, ◌*◌, ◌/◌, ◌%◌, ◌==◌, min, max, nat_lt, if◌then◌else◌};
ghost use Rattle.sl_code_semantics.specs.declared.known.TheConstants.{REGISTERS};
ghost use Rattle.sl_code_semantics.specs.Effects.{Goes, Jumps, sets, most, where_positive};
ghost use Rattle.sl_code_steps.specs.inner.Stores.{state_of, sizes_of, effect_of, IsTo};

use crate::step::Effect;
use crate::store::Store;

impl Store {
    /// What a register holds.
    pub(crate) fn register(&self, register: u8) -> u64
        requires { register < REGISTERS }
        ensures { result ≡ (state_of self.now).registers register }
    {
        self.registers[usize::from(register)]
    }

    /// Sets a register.
    pub(crate) fn set(&mut self, register: u8, value: u64) -> Effect
        requires { register < REGISTERS }
        ensures follows { effect_of result (state_of self.new) ≡ sets register value (state_of self.old) }
        ensures kept { sizes_of self.new ≡ sizes_of self.old }
    {
        self.registers[usize::from(register)] = value;
        Effect::Goes
    }

    /// Sets a register to what another holds.
    pub(crate) fn copy(&mut self, register: u8, from: u8) -> Effect
        requires register { register < REGISTERS }
        requires from { from < REGISTERS }
        ensures follows { let s = state_of self.old in effect_of result (state_of self.new) ≡ sets register (s.registers from) s }
        ensures kept { sizes_of self.new ≡ sizes_of self.old }
    {
        self.set(register, self.register(from))
    }

    /// Adds, up to the greatest number.
    pub(crate) fn add(&mut self, register: u8, by: u8) -> Effect
        requires register { register < REGISTERS }
        requires by { by < REGISTERS }
        ensures follows { let s = state_of self.old in effect_of result (state_of self.new) ≡ sets register (min (s.registers register + s.registers by) most) s }
        ensures kept { sizes_of self.new ≡ sizes_of self.old }
    {
        let sum = self.register(register).saturating_add(self.register(by));
        self.set(register, sum)
    }

    /// Subtracts, down to 0.
    pub(crate) fn subtract(&mut self, register: u8, by: u8) -> Effect
        requires register { register < REGISTERS }
        requires by { by < REGISTERS }
        ensures follows { let s = state_of self.old in effect_of result (state_of self.new) ≡ sets register (s.registers register - s.registers by) s }
        ensures kept { sizes_of self.new ≡ sizes_of self.old }
    {
        let rest = self.register(register).saturating_sub(self.register(by));
        self.set(register, rest)
    }

    /// Multiplies, up to the greatest number.
    pub(crate) fn multiply(&mut self, register: u8, by: u8) -> Effect
        requires register { register < REGISTERS }
        requires by { by < REGISTERS }
        ensures follows { let s = state_of self.old in effect_of result (state_of self.new) ≡ sets register (min (s.registers register * s.registers by) most) s }
        ensures kept { sizes_of self.new ≡ sizes_of self.old }
    {
        let product = self.register(register).saturating_mul(self.register(by));
        self.set(register, product)
    }

    /// Divides by a positive number.
    pub(crate) fn divide(&mut self, register: u8, by: u8) -> Effect
        requires register { register < REGISTERS }
        requires by { by < REGISTERS }
        requires positive { 0 < (state_of self.old).registers by }
        ensures follows { let s = state_of self.old in effect_of result (state_of self.new) ≡ where_positive (s.registers by) (sets register (s.registers register / s.registers by) s) }
        ensures kept { sizes_of self.new ≡ sizes_of self.old }
    {
        let quotient = self.register(register) / self.register(by);
        self.set(register, quotient)
    }

    /// Keeps the rest of a division by a positive number.
    pub(crate) fn keep_rest(&mut self, register: u8, by: u8) -> Effect
        requires register { register < REGISTERS }
        requires by { by < REGISTERS }
        requires positive { 0 < (state_of self.old).registers by }
        ensures follows { let s = state_of self.old in effect_of result (state_of self.new) ≡ where_positive (s.registers by) (sets register (s.registers register % s.registers by) s) }
        ensures kept { sizes_of self.new ≡ sizes_of self.old }
    {
        let rest = self.register(register) % self.register(by);
        self.set(register, rest)
    }

    /// Keeps the greater of two numbers.
    pub(crate) fn keep_greater(&mut self, register: u8, by: u8) -> Effect
        requires register { register < REGISTERS }
        requires by { by < REGISTERS }
        ensures follows { let s = state_of self.old in effect_of result (state_of self.new) ≡ sets register (max (s.registers register) (s.registers by)) s }
        ensures kept { sizes_of self.new ≡ sizes_of self.old }
    {
        let greater = self.register(register).max(self.register(by));
        self.set(register, greater)
    }

    /// Jumps where a register holds 0.
    pub(crate) fn jump_if_zero(&self, register: u8, target: u32) -> Effect
        requires { register < REGISTERS }
        ensures follows { let s = state_of self.now in effect_of result s ≡ (if s.registers register == 0 then Jumps s else Goes s) }
        ensures target { IsTo target result }
    {
        if self.register(register) == 0 {
            Effect::Jumps(target)
        } else {
            Effect::Goes
        }
    }

    /// Jumps where a register holds less than another.
    pub(crate) fn jump_if_less(&self, left: u8, right: u8, target: u32) -> Effect
        requires left { left < REGISTERS }
        requires right { right < REGISTERS }
        ensures follows { let s = state_of self.now in effect_of result s ≡ (if nat_lt (s.registers left) (s.registers right) then Jumps s else Goes s) }
        ensures target { IsTo target result }
    {
        if self.register(left) < self.register(right) {
            Effect::Jumps(target)
        } else {
            Effect::Goes
        }
    }
}
