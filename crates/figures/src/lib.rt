// Figures worked by hand: the definitions give them, and so do the calls.
#![tactic(auto)]

ghost use Rattle.std.specs.Prelude.{◌≡◌, [], ◌∷◌, pos, Ok};
ghost use Rattle.figures.specs.Worked.{WorkedFigures};

use sharing::{Down, Running, divide};
use tariff::Refusal;

// The shares of the worked pools, as the rules' calls give them.
#[derive(Clone, Copy)]
pub struct WorkedShares {
    pub thirds_by_down: [u32; 3],
    pub left_by_down: i64,
    pub thirds_by_running: [u32; 3],
    pub left_by_running: i64,
    pub gaps_by_running: [u32; 3],
}

// Shares the worked pools. The whole list of worked figures stands on this contract.
pub fn worked_shares() -> Result<WorkedShares, Refusal>
    ensures figures { WorkedFigures }
    ensures shares { result ≡ Ok (record { thirds_by_down = 33 ∷ 33 ∷ 33 ∷ []; left_by_down = pos 1; thirds_by_running = 33 ∷ 33 ∷ 34 ∷ []; left_by_running = pos 0; gaps_by_running = 0 ∷ 5 ∷ 0 ∷ [] }) }
{
    let thirds = [100, 100, 100];
    let mut thirds_by_down = [0; 3];
    let down = divide(&mut Down, 100, &thirds, &mut thirds_by_down)?;
    let mut thirds_by_running = [0; 3];
    let running = divide(&mut Running, 100, &thirds, &mut thirds_by_running)?;
    let mut gaps_by_running = [0; 3];
    divide(&mut Running, 5, &[0, 7, 0], &mut gaps_by_running)?;
    Ok(WorkedShares {
        thirds_by_down,
        left_by_down: down.left,
        thirds_by_running,
        left_by_running: running.left,
        gaps_by_running,
    })
}
