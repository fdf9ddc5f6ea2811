//! What a page does: it goes from step to step, and shows what stands where. It finds out nothing of its own.

/// The script of a page. A step of the data is its rank, and then of each register that changes its place, and what it held before
/// and after; the places are those of `Registers`.
pub const SCRIPT: &str = "'use strict';
{
const data = JSON.parse(document.getElementById('data').textContent);
const { cells, links, done, steps } = data;
const firstLink = cells.length, firstAnswer = firstLink + links.length, firstTold = firstAnswer + links.length;
const firstDone = firstTold + cells.length, firstStarted = firstDone + data.ranks;
const values = new Array(firstStarted + data.ranks).fill(0);
const id = name => document.getElementById(name);
const counts = cells.map((_, cell) => id('cell-' + cell).querySelectorAll('text')[1]);
const thresholds = id('plan').querySelectorAll('text.middle');
const drawing = id('plan').querySelector('svg');
const leaving = cells.map(() => []);
links.forEach((link, number) => leaving[link[0]]?.push(number));
// The step with which a register came to hold a value.
const since = new Map();
steps.forEach((step, place) => {
  for (let i = 1; i < step.length; i += 3) since.set(step[i] + '=' + step[i + 2], place);
});
let now = 0, timer = 0, acting = [];

const isReached = cell => values[cell] >= cells[cell][1];

function drawMessage(link, state) {
  id('message-' + link)?.remove();
  const path = id('link-' + link);
  if (!path || (state !== 1 && state !== 2)) return;
  const long = path.getTotalLength(), at = path.getPointAtLength(state === 1 ? long / 2 : Math.max(0, long - 10));
  const message = document.createElementNS(drawing.namespaceURI, 'g');
  message.id = 'message-' + link;
  message.setAttribute('class', 'message');
  const shape = state === 1 ? `<circle cx='${at.x}' cy='${at.y}' r='8'/>`
    : `<rect x='${at.x - 8}' y='${at.y - 8}' width='16' height='16'/>`;
  message.innerHTML = `${shape}<text x='${at.x}' y='${at.y + 3}'>${link}</text>`;
  drawing.append(message);
}

function drawLink(link) {
  const state = values[firstLink + link], source = links[link][0];
  const ready = state === 0 && cells[source] && isReached(source);
  const path = id('link-' + link)?.classList, flight = id('flight-' + link)?.classList;
  path?.toggle('waits', state === 0 && !ready);
  path?.toggle('ready', ready);
  path?.toggle('flying', state === 1 || state === 2);
  flight?.toggle('later', state === 0);
  flight?.toggle('flying', state === 1);
  drawMessage(link, state);
}

function drawAnswer(link) {
  const state = values[firstAnswer + link], back = id('back-' + link)?.classList;
  back?.toggle('later', state === 0);
  back?.toggle('flying', state === 1);
}

function drawCell(cell) {
  counts[cell].textContent = `${values[cell]} of ${cells[cell][1]}${isReached(cell) ? ' ✓' : ''}`;
  id('cell-' + cell).classList.toggle('final', isReached(cell));
  leaving[cell].forEach(drawLink);
}

function drawRank(rank) {
  const row = id('rank-' + rank).cells, stands = values[firstDone + rank];
  const text = `${stands} of ${done[rank]}${stands === done[rank] ? ' ✓' : ''}`;
  row[1].textContent = values[firstStarted + rank] ? 'yes' : 'not yet';
  row[2].textContent = text;
  if (thresholds[rank]) thresholds[rank].textContent = 'done: ' + text;
}

function draw(register) {
  if (register < firstLink) drawCell(register);
  else if (register < firstAnswer) drawLink(register - firstLink);
  else if (register < firstTold) drawAnswer(register - firstAnswer);
  else if (register >= firstDone) drawRank((register - firstDone) % data.ranks);
}

function drawLanes() {
  const lanes = new Map();
  const add = (name, link, register, value) => {
    if (values[register] !== value) return;
    if (!lanes.has(name)) lanes.set(name, []);
    lanes.get(name).push([since.get(register + '=' + value), link]);
  };
  links.forEach(([source, target], link) => {
    const from = cells[source]?.[0], to = cells[target]?.[0];
    add(`${from} → ${to}`, link, firstLink + link, 1);
    add(`waiting for the start of ${to}`, link, firstLink + link, 2);
    add(`${to} → ${from}, acknowledgements`, link, firstAnswer + link, 1);
  });
  const items = [...lanes].sort((one, other) => one[0].localeCompare(other[0], 'en', { numeric: true }));
  id('lanes').replaceChildren(...items.map(([name, messages]) => {
    const item = document.createElement('li'), lane = document.createElement('b');
    lane.textContent = name;
    messages.sort((one, other) => one[0] - other[0]);
    item.append(lane, ': ' + messages.map(message => 'link ' + message[1]).join(', '));
    return item;
  }));
  id('empty').hidden = items.length > 0;
}

function markActing() {
  acting.forEach(element => element.classList.remove('acting'));
  const first = now ? steps[now - 1][1] : -1, names = ['step-' + now, 'turn-' + now];
  if (first >= firstStarted) names.push('cell-' + (first - firstStarted));
  else if (first >= firstTold) names.push('cell-' + (first - firstTold));
  else if (first >= firstAnswer) names.push('back-' + (first - firstAnswer));
  else if (first >= firstLink) names.push('link-' + (first - firstLink), 'flight-' + (first - firstLink));
  acting = names.map(id).filter(element => element);
  acting.forEach(element => element.classList.add('acting'));
}

function sentence() {
  if (!now) return 'Before the first step.';
  const [, rank, name, what, stands] = Array.from(id('step-' + now).cells, cell => cell.textContent);
  return `Rank ${rank}, ${name}: ${what}. ${stands}`;
}

function keepInSight() {
  const time = id('time'), cursor = id('cursor'), across = Number(cursor.dataset.across) * now;
  cursor.setAttribute('transform', `translate(${across} 0)`);
  if (across < time.scrollLeft + 40 || across > time.scrollLeft + time.clientWidth - 120) {
    time.scrollLeft = across - time.clientWidth / 2;
  }
  const row = id('step-' + now), table = id('steps');
  if (row) table.scrollTop = row.offsetTop - table.clientHeight / 2;
}

function show() {
  drawLanes();
  markActing();
  id('now').textContent = sentence();
  id('at').value = now;
  id('count').textContent = `step ${now} of ${steps.length}`;
  id('first').disabled = id('back').disabled = now === 0;
  id('on').disabled = id('last').disabled = now === steps.length;
  document.body.dataset.step = now;
  keepInSight();
  history.replaceState(null, '', '#step=' + now);
}

function go(step) {
  const from = now, to = Math.min(Math.max(step, 0), steps.length), touched = new Set();
  for (; now < to; now++) {
    const changes = steps[now];
    for (let i = 1; i < changes.length; i += 3) {
      values[changes[i]] = changes[i + 2];
      touched.add(changes[i]);
    }
  }
  for (; now > to; now--) {
    const changes = steps[now - 1];
    for (let i = changes.length - 3; i > 0; i -= 3) {
      values[changes[i]] = changes[i + 1];
      touched.add(changes[i]);
    }
  }
  touched.forEach(draw);
  for (let turn = Math.min(from, to) + 1; turn <= Math.max(from, to); turn++) {
    id('turn-' + turn).classList.toggle('later', turn > now);
  }
  show();
}

function stop() {
  clearInterval(timer);
  timer = 0;
  id('play').textContent = 'play';
}

function play() {
  if (timer) return stop();
  if (now === steps.length) go(0);
  id('play').textContent = 'pause';
  timer = setInterval(() => now < steps.length ? go(now + 1) : stop(), 700);
}

function shade() {
  const root = document.documentElement, asked = matchMedia('(prefers-color-scheme: dark)').matches ? 'dark' : 'light';
  root.dataset.shade = (root.dataset.shade ?? asked) === 'dark' ? 'light' : 'dark';
}

const ways = {
  first: () => go(0), back: () => go(now - 1), play, on: () => go(now + 1), last: () => go(steps.length), shade
};
const keys = {
  ArrowLeft: ways.back, ArrowRight: ways.on, Home: ways.first, End: ways.last, ' ': play,
  PageUp: () => go(now - 10), PageDown: () => go(now + 10)
};
for (const name in ways) id(name).onclick = ways[name];
id('at').max = steps.length;
id('at').oninput = event => go(Number(event.target.value));
document.onkeydown = event => {
  const busy = event.target.tagName === 'INPUT' || (event.target.tagName === 'BUTTON' && event.key === ' ');
  if (busy || event.altKey || event.ctrlKey || event.metaKey || !keys[event.key]) return;
  event.preventDefault();
  keys[event.key]();
};
id('time').onclick = event => {
  const turn = event.target.closest('.turn');
  if (turn) go(Number(turn.id.slice(5)));
};
const asked = () => Number(new URLSearchParams(location.hash.slice(1)).get('step')) || 0;
onhashchange = () => { if (asked() !== now) go(asked()); };
values.forEach((_, register) => draw(register));
steps.forEach((_, place) => id('turn-' + (place + 1)).classList.add('later'));
document.querySelector('nav').hidden = false;
go(asked());
}
";
