// The script of the page. `tools/page/policy.py` writes it.

/// The script marks the tokens that have the origin of the token under the mouse or the keyboard's
/// cursor, and opens and closes calls. The page can be read without it.
pub const SCRIPT: &str = "(function () {
'use strict';
var bar = document.getElementById('status');
var tools = document.getElementById('tools');
var hot = [];
var lines = document.querySelectorAll('#source .n');
function all(selector, inside) {
  return Array.prototype.slice.call((inside || document).querySelectorAll(selector));
}
function lineOf(token) {
  var low = 0, high = lines.length;
  while (low < high) {
    var middle = (low + high) >> 1;
    if (lines[middle].compareDocumentPosition(token) & 4) { low = middle + 1; }
    else { high = middle; }
  }
  return low;
}
function where(key) {
  var token = all('[data-o=\\'' + key + '\\']').filter(function (one) {
    return one.tagName === 'I' && !one.className.replace('hot', '').replace('cur', '').trim();
  })[0];
  return token ? ', line ' + lineOf(token) : '';
}
function describe(token) {
  var text = '\\u201C' + token.textContent + '\\u201D ';
  var place = where(token.dataset.o);
  var shown = hot.length === 1 ? '' : ' (' + hot.length + ' tokens)';
  var variable = /(?:^| )[vs]([0-5])(?: |$)/.exec(token.className.baseVal || token.className || '');
  if (token.classList.contains('t')) { return text + 'from the template' + place + shown; }
  if (!variable) { return text + place.slice(2) + shown; }
  var card = token.closest('.card');
  var chip = card && card.querySelector(':scope > .head .chip.v' + variable[1]);
  var round = token.dataset.r ? ', round ' + token.dataset.r : '';
  return text + 'from ' + (chip ? chip.textContent : 'the argument') + round + place + shown;
}
function mark(token) {
  hot.forEach(function (one) { one.classList.remove('hot'); });
  hot = token ? all('[data-o=\\'' + token.dataset.o + '\\']') : [];
  hot.forEach(function (one) { one.classList.add('hot'); });
  bar.textContent = token ? describe(token) : '';
}
function current(token) {
  all('.cur').forEach(function (one) { one.classList.remove('cur'); });
  if (token) {
    token.classList.add('cur');
    token.scrollIntoView({ block: 'nearest', inline: 'nearest' });
  }
  mark(token);
}
document.addEventListener('mouseover', function (event) {
  var token = event.target.closest && event.target.closest('[data-o]');
  if (token) { mark(token); }
});
document.addEventListener('keydown', function (event) {
  var code = event.target;
  if (event.key === 'Escape') { current(null); return; }
  if (!code.classList || !code.classList.contains('code')) { return; }
  var step = { ArrowRight: 1, ArrowLeft: -1 }[event.key];
  if (!step) { return; }
  var tokens = all('i[data-o]', code).filter(function (one) {
    return one.closest('.code') === code && one.getClientRects().length;
  });
  var at = tokens.findIndex(function (one) { return one.classList.contains('cur'); });
  var next = tokens[at < 0 ? (step > 0 ? 0 : tokens.length - 1) : at + step];
  if (next) { event.preventDefault(); current(next); }
});
function openAll(inside, isOpen) {
  all('details.call', inside).forEach(function (one) { one.open = isOpen; });
}
function openTo(target) {
  for (var one = target; one; one = one.parentElement) {
    if (one.tagName === 'DETAILS') { one.open = true; }
  }
}
function follow() {
  var target = location.hash && document.getElementById(location.hash.slice(1));
  if (target) { openTo(target); target.scrollIntoView(); }
}
function inline(track) {
  var use = track.querySelector('use');
  var drawing = use && document.querySelector(use.getAttribute('href'));
  if (!drawing) { return; }
  var copy = drawing.cloneNode(true);
  copy.removeAttribute('id');
  use.closest('svg').setAttribute('role', 'group');
  use.parentNode.replaceChild(copy, use);
}
function expectation(track, at) {
  var offsets = track.dataset.states.split('|');
  if (at >= offsets.length) { return 'Stopped before this token.'; }
  var states = offsets[at].split(' ');
  var boxes = all('[data-s]', track), texts = [];
  boxes.forEach(function (box) {
    var isLive = states.indexOf(box.dataset.s) >= 0;
    box.classList.toggle('live', isLive);
    if (isLive) { texts.push('\\u201C' + box.textContent + '\\u201D'); }
  });
  if (texts.length < states.filter(Boolean).length) { texts.push('the end'); }
  return 'Expects ' + texts.join(' or ') + '.';
}
function addSlider(match) {
  var tracks = all('.track[data-states]', match);
  if (!tracks.length || match.querySelector('input')) { return; }
  var tokens = [], next = 0;
  all('.argument i', match).forEach(function (one) {
    if (one.dataset.n) { next = Number(one.dataset.n); }
    tokens[next] = one;
    next += 1;
  });
  var end = match.querySelector('.argument .end') ? 1 : 0;
  var slider = document.createElement('input');
  slider.type = 'range';
  slider.min = 0;
  slider.max = tokens.length - end;
  slider.setAttribute('aria-label', 'Token of the argument');
  match.querySelector('.argument').after(slider);
  var lines = tracks.map(function (track) {
    var line = document.createElement('p');
    line.className = 'expects';
    inline(track);
    track.after(line);
    return line;
  });
  function show() {
    var at = Number(slider.value);
    tokens.forEach(function (one, index) { one.classList.toggle('at', index === at); });
    tracks.forEach(function (track, index) {
      all('.live', track).forEach(function (one) { one.classList.remove('live'); });
      lines[index].textContent = expectation(track, at);
    });
    var token = tokens[at] ? '\\u201C' + tokens[at].textContent + '\\u201D' : 'the end';
    slider.setAttribute('aria-valuetext', token);
  }
  var marked = tokens.map(function (one) { return one.parentNode.tagName === 'MARK'; });
  slider.value = Math.max(0, marked.lastIndexOf(true));
  slider.addEventListener('input', show);
  show();
}
tools.hidden = false;
tools.addEventListener('click', function (event) {
  var what = event.target.dataset.do;
  if (what) { openAll(document, what === 'open'); }
});
document.addEventListener('toggle', function (event) {
  var call = event.target;
  var head = call.open && call.querySelector(':scope > .card > .head');
  if (!head || head.querySelector('button')) { return; }
  if (!call.querySelector('.card details.call')) { return; }
  var button = document.createElement('button');
  button.type = 'button';
  button.textContent = 'Expand to the end';
  button.addEventListener('click', function () { openAll(call, true); });
  head.appendChild(button);
}, true);
document.addEventListener('toggle', function (event) {
  if (event.target.open && event.target.classList.contains('match')) { addSlider(event.target); }
}, true);
all('details.match[open]').forEach(addSlider);
window.addEventListener('hashchange', follow);
window.addEventListener('beforeprint', function () { openAll(document, true); });
follow();
})();
";
