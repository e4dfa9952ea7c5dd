//! Tables that have been the same since a processor's horizon: nothing that they lead to is stale.

ghost use Rattle.std.specs.Prelude.{◌≡◌, ℕ, ◌%◌, Bool};
ghost use Rattle.paging_model.specs.Memory.{Memory};
ghost use Rattle.paging_model.specs.Registers.{settings_of};
ghost use Rattle.paging_model.specs.TableUses.{Reaches};
ghost use Rattle.paging_model.specs.Translations.{present_target};
ghost use Rattle.paging_model.specs.declared.entries.Bits.{Bits};
ghost use Rattle.paging_model.specs.declared.registers.Regs.{Regs};
ghost use Rattle.paging_model.specs.declared.registers.Settings.{Settings};
ghost use Rattle.history_model.specs.CachedTranslations.{Held};
ghost use Rattle.history_model.specs.History.{History, machine, memory};
ghost use Rattle.history_model.specs.StaleTranslations.{Exceeds, held_target};
ghost use Rattle.audit_laws.specs.Leads.{IsTimeOf};
ghost use Rattle.audit_laws.specs.MadeAtTimes.{LeadsUnder};
ghost use Rattle.audit_laws.specs.SteadyTables.{HasSettings, IsMappedFrom, IsPresentBelow, IsSteady};

/// Whenever a steady table was in use, what it leads to is the page at which the present walk from it ends.
pub fn steady_tables_lead_to_present_pages()
    ensures { (history : History) (p c : ℕ) (settings : Settings) (x : ℕ) (in_use : ℕ → Bool)
        (level table : ℕ) (bits : Bits) (k : ℕ) (held : Held) →
        HasSettings history p settings → IsSteady history p settings level x table
        → LeadsUnder history p c x (IsTimeOf in_use) level table bits k held
        → IsPresentBelow history settings level x table bits k held }
{}

/// Where the present tables map a page from a root as they do from a steady table, nothing that the table leads to
/// exceeds the page's present translation from that root. So it is where the page's walk from the root comes to the
/// table.
pub fn steady_tables_lead_to_nothing_stale()
    ensures stale { (history : History) (p c : ℕ) (settings : Settings) (known : Regs)
        (root x : ℕ) (in_use : ℕ → Bool) (level table : ℕ) (bits : Bits) (k : ℕ) (held : Held) →
        HasSettings history p settings → settings_of known (machine history) ≡ settings
        → IsSteady history p settings level x table → x % 4096 ≡ 0
        → IsMappedFrom (memory history) settings root level x table bits
        → LeadsUnder history p c x (IsTimeOf in_use) level table bits k held
        → Exceeds (present_target (memory history) (machine history) known root x)
        (held_target known k x held)
        → ⊥ }
    ensures reached { (memory : Memory) (settings : Settings) (root level x table : ℕ)
        (bits : Bits) → Reaches memory settings root level x table bits
        → IsMappedFrom memory settings root level x table bits }
{}
