//! Changes of the file that is read, and the answers. A change that is only a key takes it out, and `;` stands between
//! changes. A refusal is written with its row, its entry and its item.

pub(crate) const TABLES: [&str; 13] = [
    NUMBERS, VERSION, REFERENCE, CPUS, WORDS, READERS, DELAYS, BRING_UP, WATCHDOG, SOURCES, WHOLE,
    ORDER, VERSIONS,
];

const NUMBERS: &str = "
 => read
version => key 1 0 0
version = '1' => value 1 0 0
cpus => key 2 0 0
cpus = true => value 2 0 0
step => key 3 0 0
step = 10.0 => value 3 0 0
tick = [] => value 4 0 0
bits = '64' => value 5 0 0
nominal_khz => key 6 0 0
nominal_khz = {} => value 6 0 0
stable => key 7 0 0
stable = 0 => value 7 0 0
stable = true => read
";

const VERSION: &str = "
version = 0 => value 1 0 0
version = 2 => read
version = 3 => value 1 0 0
version = -1 => value 1 0 0
";

const REFERENCE: &str = "
reference => key 8 0 0
reference = 1000000 => value 8 0 0
reference = [{ khz = 1000000 }] => value 8 0 0
reference = { khz = 1000000, name = 'a' } => key 108 0 0
reference = {} => key 9 0 0
reference = { khz = '1000000' } => value 9 0 0
reference = { khz = 1000000, bits = false } => value 10 0 0
reference = { khz = 1000000, rating = 'a' } => value 11 0 0
reference = { khz = 1000000, margin = 0.0 } => value 12 0 0
";

const CPUS: &str = "
cpu => key 13 0 0
cpu = {} => value 13 0 0
cpu = 'none' => value 13 0 0
cpu = [1] => value 13 1 0
cpus = 2;cpu = [{}, 'a'] => value 13 2 0
cpu = [{ speed = 1 }] => key 113 1 0
cpus = 2;cpu = [{}, { cpu = 1 }] => key 113 2 0
cpu = [{ khz = '1' }] => value 14 1 0
cpus = 3;cpu = [{}, {}, { khz = false }] => value 14 3 0
cpu = [{ offset = 0.5 }] => value 15 1 0
cpu = [{ jumps = {} }] => value 16 1 0
cpu = [{ jumps = [[0, 1], 5] }] => value 16 1 2
cpu = [{ jumps = [[]] }] => value 16 1 1
cpu = [{ jumps = [[1]] }] => value 16 1 1
cpu = [{ jumps = [[1, 2, 3]] }] => value 16 1 1
cpu = [{ jumps = [[0, 1], [1, 2], [2, '3']] }] => value 16 1 3
cpu = [{ jumps = [[0.0, 1]] }] => value 16 1 1
cpu = [{ jumps = [] }] => read
cpu = [{ repeat = '1' }] => value 17 1 0
cpu = [{ script = 'local' }] => value 18 1 0
cpu = [{ script = [1] }] => value 18 1 1
cpu = [{ script = ['local', 'tick', ['idle']] }] => value 18 1 3
cpu = [{ script = ['local', 'locl'] }] => word 18 1 2
cpus = 2;cpu = [{}, { script = ['tock'] }] => word 18 2 1
";

const WORDS: &str = "
cpu = [{ script = [] }] => read
cpu = [{ script = ['local', 'remote 0', 'tick', 'idle', 'update', 'pause 1'] }] => read
cpu = [{ script = [''] }] => word 18 1 1
cpu = [{ script = ['Local'] }] => word 18 1 1
cpu = [{ script = [' local'] }] => word 18 1 1
cpu = [{ script = ['local '] }] => word 18 1 1
cpu = [{ script = ['tick 1'] }] => word 18 1 1
cpu = [{ script = ['pause'] }] => word 18 1 1
cpu = [{ script = ['pause '] }] => word 18 1 1
cpu = [{ script = ['pause 01'] }] => word 18 1 1
cpu = [{ script = ['pause +1'] }] => word 18 1 1
cpu = [{ script = ['pause -1'] }] => word 18 1 1
cpu = [{ script = ['pause 1 '] }] => word 18 1 1
cpu = [{ script = ['pause 1a'] }] => word 18 1 1
cpu = [{ script = ['pause 1000000000'] }] => word 18 1 1
cpu = [{ script = ['pause9'] }] => word 18 1 1
cpu = [{ script = [\"pause\\t9\"] }] => word 18 1 1
cpu = [{ script = ['remote'] }] => word 18 1 1
cpu = [{ script = ['remote  1'] }] => word 18 1 1
cpu = [{ script = ['remote 00'] }] => word 18 1 1
cpu = [{ script = ['remote pause 1'] }] => word 18 1 1
cpu = [{ script = ['remote /'] }] => word 18 1 1
cpu = [{ script = ['remote :'] }] => word 18 1 1
";

const READERS: &str = "
reader = [] => read
reader = {} => value 19 0 0
reader = [1] => value 19 1 0
reader = [{ cpu = 0 }, 0] => value 19 2 0
reader = [{ cpu = 0, khz = 1 }] => key 119 1 0
reader = [{}] => key 20 1 0
reader = [{ cpu = 0 }, {}] => key 20 2 0
reader = [{ cpu = '0' }] => value 20 1 0
reader = [{ cpu = 0, repeat = true }] => value 21 1 0
reader = [{ cpu = 0, script = {} }] => value 22 1 0
reader = [{ cpu = 0, script = ['local', 1] }] => value 22 1 2
reader = [{ cpu = 0, script = ['remote 0', 'pause 2', 'local'] }] => read
reader = [{ cpu = 0, script = ['tick'] }] => word 22 1 1
reader = [{ cpu = 0, script = ['local', 'idle'] }] => word 22 1 2
reader = [{ cpu = 0 }, { cpu = 0, script = ['update'] }] => word 22 2 1
reader = [{ cpu = 0, script = ['locl'] }] => word 22 1 1
";

const DELAYS: &str = "
delay = [] => read
delay = 1 => value 23 0 0
delay = [[1, 2]] => value 23 1 0
delay = [{ ticket = 1, ns = 1, at = 1 }] => key 123 1 0
delay = [{}] => key 24 1 0
delay = [{ ns = 1 }] => key 24 1 0
delay = [{ ticket = '1', ns = 1 }] => value 24 1 0
delay = [{ ticket = 1 }] => key 25 1 0
delay = [{ ticket = 1, ns = 1 }, { ticket = 2, ns = 1.0 }] => value 25 2 0
";

const BRING_UP: &str = "
bringup = 1 => value 26 0 0
bringup = [] => value 26 0 0
bringup = { adjust = true, timeout_us = 0, turns = 0, first_us = 0 } => key 126 0 0
bringup = {} => key 27 0 0
bringup = { adjust = 1 } => value 27 0 0
bringup = { adjust = true } => key 28 0 0
bringup = { adjust = true, timeout_us = '0' } => value 28 0 0
bringup = { adjust = true, timeout_us = 0 } => key 29 0 0
bringup = { adjust = true, timeout_us = 0, turns = false } => value 29 0 0
bringup = { adjust = false, timeout_us = 0, turns = 0 } => read
";

const WATCHDOG: &str = "
watchdog = false => value 30 0 0
watchdog = { checks = 0, pause = 1, skew = 0, retries = 0, cpu = 0 } => key 130 0 0
watchdog = {} => key 31 0 0
watchdog = { checks = '0' } => value 31 0 0
watchdog = { checks = 0 } => key 32 0 0
watchdog = { checks = 0, pause = 1.0 } => value 32 0 0
watchdog = { checks = 0, pause = 1 } => key 33 0 0
watchdog = { checks = 0, pause = 1, skew = [] } => value 33 0 0
watchdog = { checks = 0, pause = 1, skew = 0 } => key 34 0 0
watchdog = { checks = 0, pause = 1, skew = 0, retries = {} } => value 34 0 0
watchdog = { checks = 0, pause = 1, skew = 0, retries = 0 } => read
";

const SOURCES: &str = "
source = [] => read
source = 1 => value 35 0 0
source = ['tsc'] => value 35 1 0
source = [{ rating = 1, margin = 0, nominal_khz = 1000, mask = 1 }] => key 135 1 0
source = [{ name = 1 }] => value 36 1 0
source = [{ tsc = 1 }] => value 37 1 0
source = [{ name = 'a' }] => key 38 1 0
source = [{ rating = '1' }] => value 38 1 0
source = [{ rating = 1 }] => key 39 1 0
source = [{ rating = 1, margin = '0' }] => value 39 1 0
source = [{ rating = 1, margin = 0 }] => key 40 1 0
source = [{ tsc = false, rating = 1, margin = 0 }] => key 40 1 0
source = [{ rating = 1, margin = 0, nominal_khz = 1.0 }] => value 40 1 0
source = [{ rating = 1, margin = 0, nominal_khz = 1000, khz = '1' }] => value 41 1 0
source = [{ rating = 1, margin = 0, nominal_khz = 1000, bits = {} }] => value 42 1 0
source = [{ rating = 1, margin = 0, nominal_khz = 1000, jumps = 1 }] => value 43 1 0
source = [{ rating = 1, margin = 0, nominal_khz = 1000, jumps = [[1, 1], []] }] => value 43 1 2
source = [{ rating = 1, margin = 0, nominal_khz = 1000 }] => read
source = [{ name = 'any', tsc = true, rating = 1, margin = 0 }] => read
source = [{ tsc = true }] => key 38 1 0
source = [{ tsc = true, rating = 1 }] => key 39 1 0
source = [{ tsc = true, rating = 1, margin = 0, nominal_khz = 1000 }] => key 135 1 0
source = [{ tsc = true, rating = 1, margin = 0, khz = 1000 }] => key 135 1 0
source = [{ tsc = true, rating = 1, margin = 0, bits = 64 }] => key 135 1 0
source = [{ tsc = true, rating = 1, margin = 0, jumps = [] }] => key 135 1 0
";

const WHOLE: &str = "
version;cpus;step;nominal_khz;stable;reference;cpu => key 1 0 0
colour = 1 => key 100 0 0
step = => not toml
step = 9223372036854775808 => not toml
step = 1;step = 1 => not toml
cpu = [{ khz = 1, khz = 1 }] => not toml
";

const ORDER: &str = "
colour = 1;step = 0 => key 100 0 0
colour = 1;version => key 100 0 0
version;cpus => key 1 0 0
version = 3;source = [{}] => key 38 1 0
version = 3;step = 0 => value 1 0 0
cpus = '1';step => value 2 0 0
reference = { name = 'a' } => key 108 0 0
reference = {};cpu => key 9 0 0
cpu = [{ speed = 1, khz = '1' }] => key 113 1 0
cpus = 2;cpu = [{ khz = '1' }, 1] => value 14 1 0
cpus = 2;cpu = [1, { khz = '1' }] => value 13 1 0
cpus = 2;cpu = [{ script = [1] }, { speed = 1 }] => value 18 1 1
cpu = [{ jumps = [1], repeat = '1' }] => value 16 1 1
cpu = [{ repeat = '1', script = [1] }] => value 17 1 0
cpu = [{ script = ['locl', 1] }] => word 18 1 1
cpu = [{ script = [1, 'locl'] }] => value 18 1 1
cpu = [{ script = ['locl'] }];reader = [{}] => word 18 1 1
reader = [{ script = ['tick'] }] => key 20 1 0
reader = [{ cpu = 0, script = ['tick'] }];delay = 1 => word 22 1 1
delay = [{ ticket = '1' }, 1] => value 24 1 0
bringup = { turns = 1.0 } => key 27 0 0
bringup = {};watchdog = {} => key 27 0 0
watchdog = { checks = 1, cpu = 1 } => key 130 0 0
watchdog = {};source = 1 => key 31 0 0
source = [{ tsc = 1, mask = 1 }] => value 37 1 0
source = [{ name = 1, mask = 1 }] => key 135 1 0
source = [{ tsc = true, name = 1, khz = 1 }] => key 135 1 0
source = [{ tsc = 1, name = 1 }] => value 37 1 0
source = [{ name = 1, rating = '1' }] => value 36 1 0
step = 0;source = [{ tsc = 1 }] => value 37 1 0
cpu = [{ script = ['pause 0', 'locl'] }] => word 18 1 2
";

// The keys of version 2, in both versions, and where they stand among the others.
const VERSIONS: &str = "
base = 9223372036854775782 => key 100 0 0
base = '0' => key 100 0 0
version = 2;base = 9223372036854775782 => read
version = 2;base = '0' => value 44 0 0
version = '2';base = 0 => key 100 0 0
version = 3;base = 0 => key 100 0 0
version;base = 0 => key 100 0 0
version = 2;colour = 1 => key 100 0 0
version = 2;socket = 0 => key 100 0 0
cpu = [{ socket = 0 }] => key 113 1 0
version = 2;cpu = [{ socket = 0 }] => read
version = 2;cpu = [{ socket = false }] => value 45 1 0
version = 2;cpu = [{ socket = 0, speed = 1 }] => key 113 1 0
version = 2;cpus = 2;cpu = [{}, { socket = '0' }] => value 45 2 0
version = 2;cpu = [{ first_us = 0 }] => key 113 1 0
bringup = { adjust = true, timeout_us = 0, first_us = 0, turns = 0 } => key 126 0 0
version = 2;bringup = { adjust = true, timeout_us = 0, first_us = 0, turns = 0 } => read
version = 2;bringup = { adjust = true, timeout_us = 0, first_us = 0.0, turns = 0 } => value 46 0 0
version = 2;bringup = { adjust = true, timeout_us = 0, turns = 0 } => read
version = 2;stable = 0;base = '0' => value 7 0 0
version = 2;base = '0';reference = 1 => value 44 0 0
version = 2;base = '0';cpu = [{ speed = 1 }] => value 44 0 0
version = 2;cpu = [{ offset = '0', socket = '0' }] => value 15 1 0
version = 2;cpu = [{ socket = '0', jumps = 1 }] => value 45 1 0
version = 2;bringup = { adjust = true, timeout_us = '0', first_us = '0' } => value 28 0 0
version = 2;bringup = { adjust = true, first_us = '0' } => key 28 0 0
version = 2;bringup = { adjust = true, timeout_us = 0, first_us = '0' } => value 46 0 0
version = 2;step = 0;bringup = { adjust = true, timeout_us = 0, turns = 0, first_us = '0' } => value 46 0 0
";

// Changes of the file with headers.
pub(crate) const HEADERS: &str = "
 => read
offset = 0.5 => value 15 1 0
[[ cpu ]] => value 13 0 0
[[ reader ]];cpu = 0;[[ reader ]] => key 20 2 0
[[ source ]];tsc = true;bits = 64 => key 135 1 0
[ bringup ];adjust = 1 => value 27 0 0
[ watchdog.checks ] => value 31 0 0
[[ delay ]];ticket = 3;ns = 5 => read
";
